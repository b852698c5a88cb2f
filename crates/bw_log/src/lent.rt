//! What a block says of one key, read where its bytes lie.
//!
//! A search for one key needs no pair and no record but the one that it finds. So it goes over the
//! bytes of a block from length to length and compares keys as it goes. Only the value that it
//! finds is copied, and no memory is taken.

ghost use Rattle.std.specs.Prelude.{◌≡◌, IfErr};
ghost use Rattle.std.specs.Option.{option_map};
ghost use Rattle.bw_record.specs.declared.block.Block.{Block as BlockValue};
ghost use Rattle.bw_codec.specs.Lent.{record_of};
ghost use Rattle.bw_codec.specs.Reading.{Gives};
ghost use Rattle.bw_leaf.specs.Words.{newer, record_word, split_word};
ghost use Rattle.bw_leaf.specs.declared.words.Word.TheVariants.{Silent};
ghost use Rattle.bw_log.specs.BlockBytes.{IsSpelled, SpellsOne};
ghost use Rattle.bw_log.specs.Lent.{value_found, word_found, pairs_heard, ops_heard, delta_heard, base_heard, split_heard, block_heard, lent_word, heard_of, says};

use bw_codec::{
    CodecFault, Key, Place, Value, compare, is_before, lent_base, lent_delta, lent_op, lent_pair,
    lent_split,
};
use bw_page::Word;
use std::cmp::Ordering;

// The value of a key among so many pairs at the front of bytes, whose keys ascend.
#[tactic(auto, unfolding(crate::specs::Lent::value_found))]
fn value_among<'a>(
    version: u16,
    count: u16,
    key: &[u8],
    bytes: &'a [u8],
) -> Result<Option<&'a [u8]>, CodecFault>
    ensures gives { Gives (option_map (λ v. v.now)) result
        (value_found version key.now count bytes.now) }
    ensures bad { IfErr result (λ fault. fault ≡ CodecFault.BadBytes) }
{
    let mut rest = bytes;
    for _i in 0..count {
        let (own, value, behind) = lent_pair(version, rest)?;
        match compare(key, own) {
            Ordering::Less => return Ok(None),
            Ordering::Equal => return Ok(Some(value)),
            Ordering::Greater => {}
        }
        rest = behind;
    }
    Ok(None)
}

// What is said of a key after one more record.
fn newer_of<'a>(
    was: Option<Option<&'a [u8]>>,
    key: &[u8],
    own: &[u8],
    value: Option<&'a [u8]>,
) -> Option<Option<&'a [u8]>>
    ensures { lent_word (option_map (option_map (λ v. v.now)) result)
        ≡ newer (lent_word (option_map (option_map (λ v. v.now)) was.entry))
        (record_word key.now (record_of own.now (option_map (λ v. v.now) value.entry))) }
{
    match compare(key, own) {
        Ordering::Less => was,
        Ordering::Equal => Some(value),
        Ordering::Greater => was,
    }
}

// What so many records at the front of bytes say of a key: the newest of it, which comes last.
#[tactic(auto, unfolding(crate::specs::Lent::word_found))]
fn word_among<'a>(
    version: u16,
    count: u16,
    key: &[u8],
    bytes: &'a [u8],
) -> Result<Option<Option<&'a [u8]>>, CodecFault>
    ensures gives { Gives (λ x. lent_word (option_map (option_map (λ v. v.now)) x)) result
        (word_found version key.now Silent count bytes.now) }
    ensures bad { IfErr result (λ fault. fault ≡ CodecFault.BadBytes) }
{
    let mut word: Option<Option<&'a [u8]>> = None;
    let mut rest = bytes;
    for _i in 0..count {
        let (own, value, behind) = lent_op(version, rest)?;
        word = newer_of(word, key, own, value);
        rest = behind;
    }
    Ok(word)
}

// What the split of a page at this key says.
fn in_cut<'a>(key: &[u8], separator: &[u8]) -> Option<Option<&'a [u8]>>
    ensures { lent_word (option_map (option_map (λ v. v.now)) result)
        ≡ split_word key.now separator.now }
{
    if is_before(key, separator) {
        None
    } else {
        Some(None)
    }
}

// What a Delta says, after its tag.
#[tactic(auto, unfolding(crate::specs::Lent::delta_heard))]
fn in_delta<'a>(
    version: u16,
    page: u32,
    key: &[u8],
    bytes: &'a [u8],
) -> Result<(Option<Option<&'a [u8]>>, Option<Place>), CodecFault>
    ensures gives { Gives (λ x. (lent_word (option_map (option_map (λ v. v.now)) x.0), x.1)) result
        (delta_heard version page key.now bytes.now) }
    ensures bad { IfErr result (λ fault. fault ≡ CodecFault.BadBytes) }
{
    let (of, back, count, rest) = lent_delta(bytes)?;
    if of != page {
        return Ok((None, None));
    }
    let word = word_among(version, count, key, rest)?;
    Ok((word, Some(back)))
}

// What a Base says, after its tag.
#[tactic(auto, unfolding(crate::specs::Lent::base_heard))]
fn in_base<'a>(
    version: u16,
    page: u32,
    key: &[u8],
    bytes: &'a [u8],
) -> Result<(Option<Option<&'a [u8]>>, Option<Place>), CodecFault>
    ensures gives { Gives (λ x. (lent_word (option_map (option_map (λ v. v.now)) x.0), x.1)) result
        (base_heard version page key.now bytes.now) }
    ensures bad { IfErr result (λ fault. fault ≡ CodecFault.BadBytes) }
{
    let (of, _, count, rest) = lent_base(version, bytes)?;
    if of != page {
        return Ok((None, None));
    }
    let value = value_among(version, count, key, rest)?;
    Ok((Some(value), None))
}

// What a Split says, after its tag: it sets the page that it makes, and cuts the one that it
// splits.
#[tactic(auto, unfolding(crate::specs::Lent::split_heard))]
fn in_split<'a>(
    version: u16,
    page: u32,
    key: &[u8],
    bytes: &'a [u8],
) -> Result<(Option<Option<&'a [u8]>>, Option<Place>), CodecFault>
    ensures gives { Gives (λ x. (lent_word (option_map (option_map (λ v. v.now)) x.0), x.1)) result
        (split_heard version page key.now bytes.now) }
    ensures bad { IfErr result (λ fault. fault ≡ CodecFault.BadBytes) }
{
    let (of, back, low, made, count, rest) = lent_split(version, bytes)?;
    if made == page {
        let value = value_among(version, count, key, rest)?;
        return Ok((Some(value), None));
    }
    if of == page {
        return Ok((in_cut(key, low), Some(back)));
    }
    Ok((None, None))
}

// What the block at the front of bytes says of a key on a page: nothing; or that it has no value;
// or its value, where it lies. And where the page's next older block stands, if that may say more.
#[tactic(auto, unfolding(crate::specs::Lent::block_heard))]
fn in_block<'a>(
    version: u16,
    page: u32,
    key: &[u8],
    bytes: &'a [u8],
) -> Result<(Option<Option<&'a [u8]>>, Option<Place>), CodecFault>
    ensures gives { Gives (λ x. (lent_word (option_map (option_map (λ v. v.now)) x.0), x.1)) result
        (block_heard version page key.now bytes.now) }
    ensures bad { IfErr result (λ fault. fault ≡ CodecFault.BadBytes) }
{
    match bytes {
        [] => Err(CodecFault::BadBytes),
        [tag, rest @ ..] => {
            if *tag == 1 {
                in_delta(version, page, key, rest)
            } else if *tag == 2 {
                in_base(version, page, key, rest)
            } else if *tag == 3 {
                in_split(version, page, key, rest)
            } else {
                Err(CodecFault::BadBytes)
            }
        }
    }
}

/// Sets the word to what the lawful block at the front of bytes says of a key on a page, and
/// answers where the block links back to if it changes this page. Only a value that it has for the
/// key is copied.
pub(crate) fn word_in_bytes(
    version: u16,
    _m: u16,
    page: u32,
    key: &Key,
    bytes: &[u8],
    word: &mut Word,
) -> Option<Place>
    requires { SpellsOne version _m bytes.now }
    ensures { (block : BlockValue) → IsSpelled version _m bytes.now block
        → heard_of word.new result ≡ says page key.now block }
{
    match in_block(version, page, key.as_slice(), bytes) {
        Ok((Some(Some(value)), back)) => match Value::new(value) {
            Ok(value) => {
                *word = Word::Holds(value);
                back
            }
            Err(_) => unreachable!(),
        },
        Ok((Some(None), back)) => {
            *word = Word::Gone;
            back
        }
        Ok((None, back)) => {
            *word = Word::Silent;
            back
        }
        Err(_) => unreachable!(),
    }
}
