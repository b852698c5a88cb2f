//! Users in a folder, and an index of their names: two tables that agree, whatever stops.
//!
//! `user` says how a user is spelled as bytes. `users` has the calls: add, rename, delete, find by
//! name, and print all in the order of names.
#![tactic(auto)]

ghost use Rattle.bw_home.specs.Ready.{IsReady};

mod user;
mod users;

use anyhow::Result;
use bw::{Course, Home, Options, System, with_store};
use std::alloc::Global;
use user::User;

// Names and cities.
const USERS: [(&'static str, &'static str); 5] = [
    ("Alan Turing", "Wilmslow"),
    ("Ada Lovelace", "London"),
    ("Grace Murray", "New York"),
    ("Alan Turing", "Guildford"),
    ("Nobody", "Nowhere"),
];

// Adds the users, each under the next number, if there are none. Then one gets another name, and
// one goes.
fn fill(home: &mut Home, alloc: Global) -> Result<()>
    requires { IsReady home.old holding }
    ensures { IsReady home.new holding }
{
    if !users::are_none(home)? {
        return Ok(());
    }
    let mut number = 0u32;
    'users: for (name, city) in USERS {
        number = number.saturating_add(1);
        users::add(home, alloc, number, User { name, city })?;
    }
    users::rename(home, alloc, 3, "Grace Hopper")?;
    users::delete(home, alloc, 5)?;
    bw_calls::keep(home)?; // and found again, whatever stops
    Ok(())
}

/// Fills the tables, if they are empty, and prints what is found.
#[derive(Drop)]
struct Tour;

impl<R: System + Print> Course<R> for Tour {
    type Answer = Result<()>;

    fn run(self, rt: &R, home: &mut Home) -> Result<()> {
        users::open(home)?;
        fill(home, rt.alloc())?;
        println!(rt;
            "Alan Turing: {:?}",
            users::named(home, rt.alloc(), "Alan Turing")?
        )?;
        users::print_all(rt, home)
    }
}

fn main(rt: HostRuntime) -> Result<()> {
    with_store(&rt, "people", &Options::default(), Tour)?
}
