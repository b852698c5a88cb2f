//! Readers beside the writers of `bwlog threads`. Each looks keys up in a thread of its own while
//! the writers put, and none may see a key go back.

ghost use Rattle.bw_home.specs.Sharing.{IsShared};

use bw_codec::{Key, Record, Value};
use bw_home::SharedHome;
use bw_ring::Group;
use bw_store::{ReadFault, Reader};
use bw_words::{Host, Miss, Stop};
use std::alloc::{AllocError, Global};
use std::sync::Arc;
use std::sync::atomic::{AtomicBool, Ordering};
use std::thread::JoinHandle;
use std::{mem, thread};

/// How many keys the readers look up at most.
const KEYS: usize = 64;

/// A key that is looked up, and what it has in turn.
#[derive(Drop)]
struct Course {
    key: Key,
    /// In whose script it stands.
    writer: usize,
    /// Whether it stands in another script, too: then nobody can say what it has in turn.
    is_shared: bool,
    /// Nothing, as all keys before a publication; then what it has before the run, and after each
    /// record of its writer: the bytes of a value, or none.
    states: Vec<Option<Vec<u8>>>,
}

/// The keys that are looked up.
#[derive(Drop)]
pub struct Courses {
    alloc: Global,
    rows: Vec<Course>,
}

// The bytes of a value.
fn bytes_of(alloc: Global, value: &Value) -> Result<Vec<u8>, AllocError> {
    let mut bytes = Vec::new(alloc);
    bytes.extend_from_slice(value.as_slice())?;
    Ok(bytes)
}

// What a record makes of its key.
fn state_of(alloc: Global, item: &Record) -> Result<Option<Vec<u8>>, AllocError> {
    match item {
        Record::Put(_, value) => Ok(Some(bytes_of(alloc, value)?)),
        Record::Del(_) => Ok(None),
    }
}

// Whether a key has this.
fn is_state(state: &Option<Vec<u8>>, value: &Option<Value>) -> bool {
    match (state, value) {
        (Some(bytes), Some(value)) => bytes.as_slice() == value.as_slice(),
        (None, None) => true,
        _ => false,
    }
}

impl Course {
    // A record of this writer changes the key.
    fn go_on(&mut self, alloc: Global, writer: usize, item: &Record) -> Result<(), AllocError> {
        self.is_shared |= writer != self.writer;
        self.states.push(state_of(alloc, item)?)?;
        Ok(())
    }

    // Where the key has this next, from this place on.
    fn place_of(&self, value: &Option<Value>, from: usize) -> Option<usize> {
        'states: for at in from..self.states.len() {
            if is_state(self.states.get(at)?, value) {
                return Some(at);
            }
        }
        None
    }
}

impl Courses {
    // Whether a key is among them.
    fn has(&self, key: &Key) -> bool {
        self.rows.iter().any(|course| course.key == *key)
    }

    // Takes a writer's key in, which has no value before the run so far.
    fn pick(&mut self, writer: usize, item: &Record) -> Result<(), AllocError> {
        if self.has(item.key()) {
            return Ok(());
        }
        let mut states = Vec::new(self.alloc);
        states.push(None)?;
        states.push(None)?;
        self.rows.push(Course {
            key: item.key().copy(),
            writer,
            is_shared: false,
            states,
        })?;
        Ok(())
    }

    // The keys of a group.
    fn pick_group(&mut self, writer: usize, group: &Group) -> Result<(), AllocError> {
        for item in group.as_slice() {
            self.pick(writer, item)?;
        }
        Ok(())
    }

    // The first keys of a script, until there are so many.
    fn pick_script(
        &mut self,
        writer: usize,
        script: &[Group],
        most: usize,
    ) -> Result<(), AllocError> {
        for group in script {
            if self.rows.len() >= most {
                break;
            }
            self.pick_group(writer, group)?;
        }
        Ok(())
    }

    // The first keys of each script, as many of one as of another.
    fn pick_all(&mut self, scripts: &[Vec<Group>]) -> Result<(), AllocError> {
        let share = KEYS.checked_div(scripts.len()).unwrap_or(0);
        let mut most: usize = 0;
        for (writer, script) in scripts.iter().enumerate() {
            most = most.saturating_add(share);
            self.pick_script(writer, script.as_slice(), most)?;
        }
        Ok(())
    }

    // Notes what a record makes of its key, if that is looked up.
    fn note(&mut self, writer: usize, item: &Record) -> Result<(), AllocError> {
        let alloc = self.alloc;
        for course in &mut self.rows {
            if course.key == *item.key() {
                return course.go_on(alloc, writer, item);
            }
        }
        Ok(())
    }

    fn note_group(&mut self, writer: usize, group: &Group) -> Result<(), AllocError> {
        for item in group.as_slice() {
            self.note(writer, item)?;
        }
        Ok(())
    }

    fn note_script(&mut self, writer: usize, script: &[Group]) -> Result<(), AllocError> {
        for group in script {
            self.note_group(writer, group)?;
        }
        Ok(())
    }

    fn note_all(&mut self, scripts: &[Vec<Group>]) -> Result<(), AllocError> {
        for (writer, script) in scripts.iter().enumerate() {
            self.note_script(writer, script.as_slice())?;
        }
        Ok(())
    }

    /// Up to 64 keys of these scripts, only those in one script, and what each has in turn. Costs a
    /// look at each of them for each record.
    pub fn of(alloc: Global, scripts: &[Vec<Group>]) -> Result<Courses, AllocError> {
        let mut courses = Courses::none(alloc);
        courses.pick_all(scripts)?;
        courses.note_all(scripts)?;
        courses.rows.retain(|course| !course.is_shared);
        Ok(courses)
    }

    /// No key.
    pub fn none(alloc: Global) -> Courses {
        Courses {
            alloc,
            rows: Vec::new(alloc),
        }
    }

    // What the key at this place has before the run.
    fn begin_at(&mut self, index: usize, home: &mut SharedHome) -> Result<(), Miss>
        requires { IsShared home.old holding }
        ensures { IsShared home.new holding }
    {
        let Some(course) = self.rows.get_mut(index) else {
            return Ok(());
        };
        let value = value_before(home, &course.key)?;
        course.begin(self.alloc, value)?;
        Ok(())
    }

    // What each key has before the run.
    fn begin(&mut self, home: &mut SharedHome) -> Result<(), Miss>
        requires { IsShared home.old holding }
        ensures { IsShared home.new holding }
    {
        'keys: for index in 0..self.rows.len() {
            self.begin_at(index, home)?;
        }
        Ok(())
    }
}

// What a key has in a store.
fn value_before(home: &mut SharedHome, key: &Key) -> Result<Option<Value>, Miss>
    requires { IsShared home.old holding }
    ensures { IsShared home.new holding }
{
    Ok(home.store.get(key)?)
}

impl Course {
    // Has this before the run.
    fn begin(&mut self, alloc: Global, value: Option<Value>) -> Result<(), AllocError> {
        let first = match value {
            Some(value) => Some(bytes_of(alloc, &value)?),
            None => None,
        };
        if let Some(state) = self.states.get_mut(1) {
            *state = first;
        }
        Ok(())
    }
}

/// What a reader has at the end.
#[derive(Clone, Copy)]
pub struct Seen {
    /// How many pairs there are.
    pub pairs: u64,
    /// Whether each look-up was answered, and no key went back.
    pub is_sound: bool,
}

/// A reader, and how far it saw each key go.
#[derive(Drop)]
struct Watch {
    reader: Reader,
    /// For each key the place of what it had.
    places: [usize; KEYS],
    has_gone_back: bool,
    is_refused: bool,
}

impl Watch {
    // Nothing was seen yet.
    fn new(reader: Reader) -> Watch {
        Watch {
            reader,
            places: [0; KEYS],
            has_gone_back: false,
            is_refused: false,
        }
    }

    // Looks a key up, which stands at this place among them.
    fn look(&mut self, index: usize, course: &Course) {
        let Ok(value) = self.reader.get(&course.key) else {
            self.is_refused = true;
            return;
        };
        let Some(place) = self.places.get_mut(index) else {
            return;
        };
        match course.place_of(&value, *place) {
            Some(at) => *place = at,
            None => self.has_gone_back = true,
        }
    }

    // Looks all keys up.
    fn round(&mut self, courses: &Courses) {
        for (index, course) in courses.rows.iter().enumerate() {
            self.look(index, course);
        }
    }

    // How many pairs the reader's pages have.
    fn count(&mut self) -> Result<u64, ReadFault> {
        let mut pairs: u64 = 0;
        for page in 1..u32::MAX {
            match self.reader.page(page)? {
                Some(leaf) => pairs = pairs.saturating_add(leaf.pairs.as_slice().len() as u64),
                None => break,
            }
        }
        Ok(pairs)
    }

    // Looks all keys up once more, and walks all pages. No answer if memory ran out.
    fn end(mut self, courses: &Courses) -> Option<Seen> {
        self.round(courses);
        match self.count() {
            Ok(pairs) => Some(Seen {
                pairs,
                is_sound: !self.is_refused && !self.has_gone_back,
            }),
            Err(ReadFault::NoMemory) => None,
            Err(ReadFault::NoReader) => Some(Seen {
                pairs: 0,
                is_sound: false,
            }),
        }
    }
}

// Looks all keys up again and again, until it is over.
fn watch_all(reader: Reader, courses: &Courses, is_over: &AtomicBool) -> Option<Seen> {
    let mut watch = Watch::new(reader);
    for _ in 0..u64::MAX {
        watch.round(courses);
        if watch.is_refused || is_over.load(Ordering::SeqCst) {
            break;
        }
        thread::yield_now();
    }
    watch.end(courses)
}

/// The readers of a run.
#[derive(Drop)]
pub struct Readers {
    is_over: Arc<AtomicBool>,
    threads: Vec<JoinHandle<Option<Seen>>>,
}

impl Readers {
    /// None yet.
    pub fn none(alloc: Global) -> Result<Readers, AllocError> {
        Ok(Readers {
            is_over: Arc::new(alloc, AtomicBool::new(false))?,
            threads: Vec::new(alloc),
        })
    }

    // Starts one more.
    fn add<R: Host>(
        &mut self,
        rt: &R,
        home: &mut SharedHome,
        courses: &Arc<Courses>,
    ) -> Result<(), Stop>
        requires { IsShared home.old holding }
        ensures { IsShared home.new holding }
    {
        self.threads.reserve(1)?;
        let theirs = Arc::try_clone(courses)?;
        let is_over = Arc::try_clone(&self.is_over)?;
        let Ok(reader) = home.store.reader() else {
            return Err(Stop::NoMemory);
        };
        match thread::spawn(rt, move || watch_all(reader, &theirs, &is_over)) {
            Ok(child) => self.threads.push(child)?,
            Err(_) => return Err(Stop::NoMemory),
        }
        Ok(())
    }

    /// Starts so many, which look these keys up.
    pub fn start<R: Host>(
        &mut self,
        rt: &R,
        home: &mut SharedHome,
        count: u32,
        courses: Courses,
    ) -> Result<(), Miss>
        requires { IsShared home.old holding }
        ensures { IsShared home.new holding }
    {
        let mut courses = courses;
        courses.begin(home)?;
        let courses = Arc::new(rt.alloc(), courses)?;
        'readers: for _ in 0..count {
            self.add(rt, home, &courses)?;
        }
        Ok(())
    }

    /// Ends them: each looks all keys up once more, and walks all pages.
    pub fn end<R: Host>(&mut self, rt: &R) -> Result<Vec<Seen>, Stop> {
        self.is_over.store(true, Ordering::SeqCst);
        let threads = mem::replace(&mut self.threads, Vec::new(rt.alloc()));
        let mut all = Vec::new(rt.alloc());
        for child in threads {
            match child.join(rt) {
                Some(seen) => all.push(seen)?,
                None => return Err(Stop::NoMemory),
            }
        }
        Ok(all)
    }
}
