//! A frame while it grows.
//!
//! A group of records may not be parted between two frames, so whoever adds has to know before
//! whether all of it fits. The length that the frame would have is known at any time, without
//! laying it out. And room for the most that a frame can need is reserved once: after that no
//! addition is refused memory. Were one refused, a record could stand in the history and in its
//! page, and in no frame.
//!
//! The bytes of records go to one arena in the order in which they come, and pieces say which block
//! they belong to. Records of one page join in one Delta until another block of that page comes. A
//! sealed buffer takes nothing more: its bytes may be half on the disk.

ghost use Rattle.std.specs.Prelude.{ℕ, Some, None, if◌then◌else◌, ◌≡◌, ◌≤◌, ◌<◌, ◌+◌, ◌/◌, ◌∷◌, ◌++◌, ◌↔◌, ◌⊎◌, [], true, false, length, slice_get, IsTrue, IfOk, OnOk, OnErr, IfSome, IsErrOf};
ghost use Rattle.std.specs.List.{AllByRecursion};
ghost use Rattle.std.specs.Option.{option_map};
ghost use Rattle.bw_codec.specs.Grammar.{block_bytes, frame_bytes, IsBlock};
ghost use Rattle.bw_record.specs.Touch.{touches};
ghost use Rattle.bw_record.specs.declared.leaf.Leaf.{Leaf};
ghost use Rattle.bw_record.specs.declared.block.Place.{Place as PlaceValue};
ghost use Rattle.bw_record.specs.declared.block.Block.TheVariants.{Delta, Base};
ghost use Rattle.std.specs.HashMap.{spare, hash_map_len};
ghost use Rattle.bw_buffer.specs.Index.{index_at};
ghost use Rattle.bw_buffer.specs.Filling.{frame_of, size_of, with_all, place_at, IsLawfulFrame, SpellsBase};
ghost use Rattle.bw_buffer.specs.Joining.{joins, joins_of, open_records, takes, added, index_for, is_delta};
ghost use Rattle.bw_buffer.specs.Counting.{front_length, grown, records_with};
ghost use Rattle.bw_buffer.specs.Marks.{mark_of, is_closed_by};
ghost use Rattle.bw_buffer.specs.Rows.{IsUntouched};

use crate::back::{block_from, spelled};
use crate::fault::PutError;
use crate::index::{Index, forget, forget_all, look, note};
use crate::layout::{copy_in, lay_out};
use crate::mark::Mark;
use crate::rows::{DELTA_HEAD, MIN_PIECE, Piece, Row};
use bw_codec::limits::{HEAD_LEN, MAX_OPS, MIN_BLOCK};
use bw_codec::{
    Block, Ops, Packed, Place, Record, block_length, ops_length, record_length, write_block,
    write_ops,
};
use std::alloc::{AllocError, Global};
use std::marker::Model;
use std::slice;

/// A frame in the making.
#[derive(Drop)]
pub struct Buffer {
    /// The frame's number, from 1.
    frame: u64,
    /// The most bytes that the frame may have; so much room was reserved at once.
    limit: u32,
    /// The frame's length if it were sealed now.
    size: u32,
    is_sealed: bool,
    /// The blocks, but for the bytes of their pieces.
    rows: Vec<Row>,
    /// Which bytes of the arena are whose.
    pieces: Vec<Piece>,
    /// The bytes of all pieces, in the order in which they came.
    arena: Vec<u8>,
    /// Of each page whose last block is a Delta, the index of that block. It keeps pages of earlier
    /// frames too, closed.
    deltas: Index,
    /// Where the next piece of each block goes, while the frame is laid out.
    spots: Vec<u32>,
    /// The frame's bytes, once it is sealed.
    bytes: Vec<u8>,
}

impl Model for Buffer {
    ghost use Rattle.bw_buffer.specs.Filling.{Filling};

    ghost Value = { Filling };

    ghost use Rattle.bw_buffer.specs.Laid.{filling_of, IsLaid};

    ghost view = { filling_of };

    ghost invariant = { IsLaid };
}

impl Buffer {
    /// An empty buffer for the frame of this number, from 1, of at most `limit` bytes, 65,536 to
    /// 262,144. The room for all of them is reserved here, so that a buffer never grows again; a
    /// refusal of it is the only error.
    pub fn new(alloc: Global, frame: u64, limit: u32) -> Result<Buffer, AllocError>
        requires numbered { 1 ≤ frame }
        requires limit { (65536 ≤ limit) × (limit ≤ 262144) }
        ensures { IfOk result (λ b. b
            ≡ record { frame = frame; limit = limit; blocks = []; is_sealed = false }) }
    {
        let blocks = (limit / MIN_BLOCK) as usize;
        let rows = Vec::with_capacity(alloc, blocks)?;
        let pieces = Vec::with_capacity(alloc, (limit / MIN_PIECE) as usize)?;
        let arena = Vec::with_capacity(alloc, limit as usize)?;
        let deltas = Index::with_capacity(alloc, blocks + most_kept(limit))?;
        let spots = Vec::with_capacity(alloc, blocks)?;
        let bytes = Vec::with_capacity(alloc, limit as usize)?;
        Ok(Buffer {
            frame,
            limit,
            size: HEAD_LEN as u32,
            is_sealed: false,
            rows,
            pieces,
            arena,
            deltas,
            spots,
            bytes,
        })
    }

    /// This buffer for another frame, from 1: empty, and not sealed. No memory is taken, so that a
    /// buffer whose frame was appended serves the next one. Time is linear in the blocks of the
    /// frame that ends, whatever the limit; spread over the frames, so are the rare times when the
    /// map that finds the Deltas is cleared.
    pub fn restart(&mut self, frame: u64)
        requires numbered { 1 ≤ frame }
        requires done { (self.old.is_sealed ≡ true) ⊎ (self.old.blocks ≡ []) }
        ensures { self.new
            ≡ record { frame = frame; limit = self.old.limit; blocks = []; is_sealed = false } }
    {
        close_all(
            &mut self.deltas,
            self.rows.as_slice(),
            most_kept(self.limit),
        );
        self.frame = frame;
        self.size = HEAD_LEN as u32;
        self.is_sealed = false;
        self.rows.clear();
        self.pieces.clear();
        self.arena.clear();
    }

    /// Adds all the blocks, one or more that are lawful for 32 pairs a page, or none, and answers
    /// the place of the first. A Delta joins the last block of its page if that is a Delta and the
    /// records of both are at most 65,535: its back place is not used, and its place is that of the
    /// block. `Sealed` after the seal, else `NoRoom` if the frame would be longer than the limit.
    /// No memory is taken. Time is linear in the bytes of these blocks, and in the square of their
    /// number, whatever stands in the buffer.
    pub fn put_all(&mut self, blocks: &[Block]) -> Result<Place, PutError>
        requires some { 1 ≤ length blocks.now }
        requires lawful { AllByRecursion (IsBlock 32) blocks.now }
        ensures added { OnOk result (self.new ≡ with_all self.old blocks.now) }
        ensures place { IfOk result (λ place. IfSome (slice_get blocks.now 0) (λ block.
            place ≡ place_at self.old (index_for self.old.blocks block))) }

        // The seal is looked at first, then the room; there is no other refusal.
        ensures sealed { IsErrOf result PutError.Sealed ↔ IsTrue self.old.is_sealed }
        ensures no_room { IsErrOf result PutError.NoRoom
            ↔ ((self.old.is_sealed ≡ false)
            × (self.old.limit < size_of (with_all self.old blocks.now))) }
        ensures unchanged { OnErr result (self.new ≡ self.old) }
    {
        if self.is_sealed() {
            return Err(PutError::Sealed);
        }
        if !self.has_room(blocks) {
            return Err(PutError::NoRoom);
        }
        let first = Place {
            frame: self.frame(),
            index: self.index_for(&blocks[0]),
        };
        for block in blocks {
            self.put(block);
        }
        Ok(first)
    }

    /// Adds a Delta of this one record, lawful for 32 pairs a page, or nothing, and answers its
    /// place. It does what `put_all` does with only this block, but no block is made of the record.
    /// It joins, and is refused, as there. No memory is taken. Time is that of a look-up and of
    /// copying the record's bytes, whatever stands in the buffer.
    pub fn put_record(&mut self, page: u32, back: &Place, item: &Packed) -> Result<Place, PutError>
        requires lawful { IsBlock 32 (Delta page back.now (item.now ∷ [])) }
        ensures added { OnOk result
            (self.new ≡ with_all self.old (Delta page back.now (item.now ∷ []) ∷ [])) }
        ensures place { IfOk result (λ place. place
            ≡ place_at self.old
            (index_for self.old.blocks (Delta page back.now (item.now ∷ [])))) }

        // The seal is looked at first, then the room; there is no other refusal.
        ensures sealed { IsErrOf result PutError.Sealed ↔ IsTrue self.old.is_sealed }
        ensures no_room { IsErrOf result PutError.NoRoom
            ↔ ((self.old.is_sealed ≡ false)
            × (self.old.limit
            < size_of (with_all self.old (Delta page back.now (item.now ∷ []) ∷ [])))) }
        ensures unchanged { OnErr result (self.new ≡ self.old) }
    {
        if self.is_sealed {
            return Err(PutError::Sealed);
        }
        let joins = self.joining(page, 1);
        if (self.room() as usize) < length_of(joins, ops_length(slice::from_ref(item))) {
            return Err(PutError::NoRoom);
        }
        Ok(self.put_at(joins, page, back, item))
    }

    // Adds a record that fits to the Delta that it joins, or a Delta of it after all blocks.
    // Answers where that Delta stands.
    fn put_at(&mut self, joins: Option<u32>, page: u32, back: &Place, item: &Packed) -> Place
        requires joins { joins ≡ joins_of 1 page self.old.blocks }
        requires lawful { IsBlock 32 (Delta page back.now (item.now ∷ [])) }
        requires unsealed { self.old.is_sealed ≡ false }
        requires fits { size_of (with_all self.old (Delta page back.now (item.now ∷ []) ∷ []))
            ≤ self.old.limit }
        ensures added { self.new ≡ with_all self.old (Delta page back.now (item.now ∷ []) ∷ []) }
        ensures place { result ≡ place_at self.old
            (index_for self.old.blocks (Delta page back.now (item.now ∷ []))) }
    {
        let frame = self.frame();
        match joins {
            Some(index) => {
                self.join(page, index, back, slice::from_ref(item));
                Place { frame, index }
            }
            None => {
                let index = self.count();
                self.put_new(page, back, slice::from_ref(item));
                Place { frame, index }
            }
        }
    }

    /// Adds a Base by the bytes that spell it, and answers its place: for a block that stands in a
    /// frame already and is written again as it is, so that nobody decodes it. `page` is the page
    /// that it sets. `Sealed` and `NoRoom` as in `put_all`. No memory is taken. Time is that of
    /// copying these bytes, whatever stands in the buffer.
    pub fn put_base(&mut self, bytes: &[u8], page: u32) -> Result<Place, PutError>
        requires { SpellsBase page bytes.now }
        ensures added { (leaf : Leaf) → IsBlock 32 (Base leaf)
            → bytes.now ≡ block_bytes (Base leaf)
            → OnOk result
            (self.new ≡ record self.old { blocks = self.old.blocks ++ Base leaf ∷ [] }) }
        ensures place { IfOk result (λ place. place ≡ place_at self.old (length self.old.blocks)) }

        // The seal is looked at first, then the room; there is no other refusal.
        ensures sealed { IsErrOf result PutError.Sealed ↔ IsTrue self.old.is_sealed }
        ensures no_room { IsErrOf result PutError.NoRoom
            ↔ ((self.old.is_sealed ≡ false)
            × (self.old.limit < size_of self.old + length bytes.now)) }
        ensures unchanged { OnErr result (self.new ≡ self.old) }
    {
        if self.is_sealed {
            return Err(PutError::Sealed);
        }
        if (self.room() as usize) < bytes.len() {
            return Err(PutError::NoRoom);
        }
        let place = Place {
            frame: self.frame,
            index: self.count(),
        };
        self.put_bytes(bytes, page);
        Ok(place)
    }

    fn put_bytes(&mut self, bytes: &[u8], page: u32)
        requires spells { SpellsBase page bytes.now }
        requires unsealed { self.old.is_sealed ≡ false }
        requires fits { size_of self.old + length bytes.now ≤ self.old.limit }
        ensures { (leaf : Leaf) → IsBlock 32 (Base leaf) → bytes.now ≡ block_bytes (Base leaf)
            → self.new ≡ record self.old { blocks = self.old.blocks ++ Base leaf ∷ [] } }
    {
        let at = self.rows.as_slice().len() as u32;
        let len = bytes.len() as u32;
        forget(&mut self.deltas, page);
        self.rows.push_reserved(whole_row(Mark::Sets(page), len));
        self.pieces.push_reserved(Piece { block: at, len });
        copy_in(bytes, &mut self.arena);
        self.size += len;
    }

    /// Whether the frame with these blocks would not be longer than the limit. No memory is taken.
    pub fn has_room(&self, blocks: &[Block]) -> bool
        requires { AllByRecursion (IsBlock 32) blocks.now }
        ensures { IsTrue result ↔ (size_of (with_all self.now blocks.now) ≤ self.now.limit) }
    {
        let mut left = self.room() as usize;
        for at in 0..blocks.len() {
            let more = self.length_behind(&blocks[..at], &blocks[at]);
            if left < more {
                return false;
            }
            left -= more;
        }
        true
    }

    /// Whether the frame with a Delta of this one record would not be longer than the limit: what
    /// `has_room` says of only this block. No memory is taken. Time is that of a look-up.
    pub fn has_room_for(&self, page: u32, item: &Record) -> bool
        ensures { (back : PlaceValue) → IsTrue result
            ↔ (size_of (with_all self.now (Delta page back (item.now ∷ []) ∷ []))
            ≤ self.now.limit) }
    {
        length_of(self.joining(page, 1), record_length(item)) <= self.room() as usize
    }

    // How many bytes a block adds after these others.
    fn length_behind(&self, others: &[Block], block: &Block) -> usize
        requires { IsBlock 32 block.now }
        ensures { result + size_of (with_all self.now others.now)
            ≡ size_of (with_all self.now (others.now ++ block.now ∷ [])) }
    {
        let length = block_length(block);
        match block {
            Block::Delta { page, ops, .. } => {
                if self.joins_behind(others, *page, ops.as_slice().len()) {
                    length - DELTA_HEAD as usize
                } else {
                    length
                }
            }
            Block::Base(_) => length,
            Block::Split { .. } => length,
        }
    }

    // Whether a Delta of so many records of a page joins a block, after these others.
    fn joins_behind(&self, others: &[Block], page: u32, records: usize) -> bool
        ensures { result ≡ takes records (open_records page (added self.now.blocks others.now)) }
    {
        match self.records_behind(others, page) {
            Some(was) => have_room(was, records),
            None => false,
        }
    }

    // How many records the last block of a page has after these others, if that is a Delta.
    fn records_behind(&self, others: &[Block], page: u32) -> Option<usize>
        ensures { result ≡ open_records page (added self.now.blocks others.now) }
    {
        let mut records = self.records(page);
        for block in others {
            records = records_with(page, block, records);
        }
        records
    }

    /// How many records the last block of a page has, if that is a Delta: at most 65,535, and with
    /// so many none joins it. No memory is taken. Time is that of a look-up, however many blocks
    /// there are.
    pub fn records(&self, page: u32) -> Option<usize>
        ensures { result ≡ open_records page self.now.blocks }
    {
        match look(&self.deltas, page) {
            Some(at) => Some(self.rows[at as usize].ops as usize),
            None => None,
        }
    }

    // The index of the block that a Delta of so many records of a page joins.
    fn joining(&self, page: u32, records: usize) -> Option<u32>
        ensures { result ≡ joins_of records page self.now.blocks }
    {
        match look(&self.deltas, page) {
            Some(at) => {
                if have_room(self.rows[at as usize].ops as usize, records) {
                    Some(at)
                } else {
                    None
                }
            }
            None => None,
        }
    }

    // Where a block goes.
    fn index_for(&self, block: &Block) -> u32
        ensures { result ≡ index_for self.now.blocks block.now }
    {
        match block {
            Block::Delta { page, ops, .. } => {
                match self.joining(*page, ops.as_slice().len()) {
                    Some(at) => at,
                    None => self.count(),
                }
            }
            Block::Base(_) => self.count(),
            Block::Split { .. } => self.count(),
        }
    }

    // Adds a block that fits.
    fn put(&mut self, block: &Block)
        requires lawful { IsBlock 32 block.now }
        requires unsealed { self.old.is_sealed ≡ false }
        requires fits { size_of (with_all self.old (block.now ∷ [])) ≤ self.old.limit }
        ensures { self.new ≡ with_all self.old (block.now ∷ []) }
    {
        match block {
            Block::Delta { page, back, ops } => self.put_delta(*page, back, ops),
            Block::Base(_) => self.put_whole(block),
            Block::Split { .. } => self.put_whole(block),
        }
    }

    // Adds a block that joins no other.
    fn put_whole(&mut self, block: &Block)
        requires lawful { IsBlock 32 block.now }
        requires whole { is_delta block.now ≡ false }
        requires unsealed { self.old.is_sealed ≡ false }
        requires fits { size_of self.old + length (block_bytes block.now) ≤ self.old.limit }
        ensures { self.new ≡ record self.old { blocks = self.old.blocks ++ block.now ∷ [] } }
    {
        let at = self.rows.as_slice().len() as u32;
        let len = block_length(block) as u32;
        let mark = Mark::of(block);
        close(&mut self.deltas, mark);
        self.rows.push_reserved(whole_row(mark, len));
        self.pieces.push_reserved(Piece { block: at, len });
        write_block(block, &mut self.arena);
        self.size += len;
    }

    fn put_delta(&mut self, page: u32, back: &Place, ops: &Ops)
        requires lawful { IsBlock 32 (Delta page back.now ops.now) }
        requires unsealed { self.old.is_sealed ≡ false }
        requires fits { size_of (with_all self.old (Delta page back.now ops.now ∷ []))
            ≤ self.old.limit }
        ensures { self.new ≡ with_all self.old (Delta page back.now ops.now ∷ []) }
    {
        match self.joining(page, ops.as_slice().len()) {
            Some(at) => self.join(page, at, back, ops.as_slice()),
            None => self.put_new(page, back, ops.as_slice()),
        }
    }

    // Adds records to the last block of their page.
    fn join(&mut self, page: u32, at: u32, back: &Place, ops: &[Packed])
        requires lawful { IsBlock 32 (Delta page back.now ops.now) }
        requires unsealed { self.old.is_sealed ≡ false }
        requires joins { joins_of (length ops.now) page self.old.blocks ≡ Some at }
        requires fits { size_of (with_all self.old (Delta page back.now ops.now ∷ []))
            ≤ self.old.limit }
        ensures { self.new ≡ with_all self.old (Delta page back.now ops.now ∷ []) }
    {
        let more = ops_length(ops) as u32;
        let row = self.rows[at as usize];
        self.rows[at as usize] = Row {
            ops: row.ops + ops.len() as u32,
            len: row.len + more,
            ..row
        };
        self.pieces.push_reserved(Piece {
            block: at,
            len: more,
        });
        write_ops(ops, &mut self.arena);
        self.size += more;
    }

    // Adds a Delta after all blocks.
    fn put_new(&mut self, page: u32, back: &Place, ops: &[Packed])
        requires lawful { IsBlock 32 (Delta page back.now ops.now) }
        requires unsealed { self.old.is_sealed ≡ false }
        requires none { joins_of (length ops.now) page self.old.blocks ≡ None }
        requires fits { size_of self.old + length (block_bytes (Delta page back.now ops.now))
            ≤ self.old.limit }
        ensures { self.new ≡ with_all self.old (Delta page back.now ops.now ∷ []) }
    {
        let at = self.rows.as_slice().len() as u32;
        let len = ops_length(ops) as u32;
        note(&mut self.deltas, page, at);
        self.rows.push_reserved(Row {
            mark: Mark::Changes(page),
            back: *back,
            ops: ops.len() as u32,
            len,
        });
        self.pieces.push_reserved(Piece { block: at, len });
        write_ops(ops, &mut self.arena);
        self.size += DELTA_HEAD + len;
    }

    /// The place of the Delta that a Delta of this page and of one record joins, if there is one.
    /// No memory is taken. Time is that of a look-up, however many blocks there are.
    pub fn joins(&self, page: u32) -> Option<Place>
        ensures { result ≡ option_map (place_at self.now) (joins page self.now.blocks) }
    {
        match self.joining(page, 1) {
            Some(index) => Some(Place {
                frame: self.frame,
                index,
            }),
            None => None,
        }
    }

    /// Closes the buffer: it takes no more blocks, and its bytes are laid out. A second seal does
    /// nothing. No memory is taken. Time is linear in the frame.
    pub fn seal(&mut self)
        ensures { self.new ≡ record self.old { is_sealed = true } }
    {
        if self.is_sealed {
            return;
        }
        self.is_sealed = true;
        lay_out(
            self.frame,
            self.size,
            self.rows.as_slice(),
            self.pieces.as_slice(),
            self.arena.as_slice(),
            &mut self.spots,
            &mut self.bytes,
        );
    }

    /// Whether the buffer was sealed.
    pub fn is_sealed(&self) -> bool
        ensures { result ≡ self.now.is_sealed }
    {
        self.is_sealed
    }

    /// The most bytes that the frame may have, 65,536 to 262,144.
    pub fn limit(&self) -> u32
        ensures value { result ≡ self.now.limit }
        ensures range { (65536 ≤ result) × (result ≤ 262144) }
    {
        // The read tells the proof what holds of the fields, here the range of the limit.
        let _ = &self.bytes;
        self.limit
    }

    /// How many bytes the frame has if it is sealed now.
    pub fn len(&self) -> u32
        ensures value { result ≡ length (frame_bytes (frame_of self.now)) }
        ensures fits { result ≤ self.now.limit }
        ensures lawful { AllByRecursion (IsBlock 32) self.now.blocks }
        ensures frame { IsLawfulFrame self.now }
    {
        // The call shows the proof that the number has a range.
        let _ = self.frame();
        self.size
    }

    /// How many bytes of the limit are free.
    pub fn room(&self) -> u32
        ensures { result + size_of self.now ≡ self.now.limit }
    {
        self.limit - self.size
    }

    /// The frame's number.
    pub fn frame(&self) -> u64
        ensures value { result ≡ self.now.frame }
        ensures numbered { 1 ≤ result }
    {
        // The read shows the proof what holds of the fields, here that the number is not zero.
        let _ = &self.bytes;
        self.frame
    }

    /// How many blocks there are: a Delta that joined is none of its own.
    pub fn count(&self) -> u32
        ensures { result ≡ length self.now.blocks }
    {
        self.rows.as_slice().len() as u32
    }

    /// What the block of this index does, from 0.
    pub fn mark(&self, i: u32) -> Mark
        requires { i < length self.now.blocks }
        ensures { IfSome (slice_get self.now.blocks i) (λ block. result ≡ mark_of block) }
    {
        self.rows[i as usize].mark
    }

    /// A copy of the block of this index, from 0, sealed or not: it is read back out of its bytes.
    /// A refused growth is the only error. Time is linear in the bytes of the block, and in how
    /// often blocks were put into the frame: each piece of it is looked at.
    pub fn block(&self, alloc: Global, i: u32) -> Result<Block, AllocError>
        requires { i < length self.now.blocks }
        ensures { IfOk result (λ block. slice_get self.now.blocks i ≡ Some block) }
    {
        let bytes = spelled(
            alloc,
            i,
            &self.rows[i as usize],
            self.pieces.as_slice(),
            self.arena.as_slice(),
        )?;
        block_from(alloc, bytes.as_slice())
    }

    /// The frame's bytes, once it is sealed. Nothing is copied.
    pub fn bytes(&self) -> &[u8]
        requires sealed { self.now.is_sealed ≡ true }
        ensures value { result.now ≡ frame_bytes (frame_of self.now) }
        ensures fits { length (frame_bytes (frame_of self.now)) ≤ self.now.limit }
        ensures lawful { AllByRecursion (IsBlock 32) self.now.blocks }
        ensures frame { IsLawfulFrame self.now }
    {
        // The call shows the proof that the number has a range.
        let _ = self.frame();
        self.bytes.as_slice()
    }
}

// How many bytes a record of this length adds that joins this block, or of which a Delta is made.
fn length_of(joins: Option<u32>, length: usize) -> usize
    requires { length ≤ 644 }
    ensures { result ≡ front_length joins + length }
{
    match joins {
        Some(_) => length,
        None => DELTA_HEAD as usize + length,
    }
}

// How many records the last block of a page has after this one, if that is a Delta, by how many it
// had before.
fn records_with(page: u32, block: &Block, before: Option<usize>) -> Option<usize>
    ensures { result ≡ records_with page before block.now }
{
    if !block.touches(page) {
        return before;
    }
    match block {
        Block::Delta { ops, .. } => Some(grown(before, ops.as_slice().len())),
        Block::Base(_) => None,
        Block::Split { .. } => None,
    }
}

// How many records a Delta has that so many join, or that begins with them.
fn grown(before: Option<usize>, records: usize) -> usize
    ensures { result ≡ grown before records }
{
    match before {
        Some(was) => {
            if have_room(was, records) {
                was + records
            } else {
                records
            }
        }
        None => records,
    }
}

// Whether so many records fit beside those of a Delta.
fn have_room(was: usize, records: usize) -> bool
    ensures { result ≡ takes records (Some was) }
{
    records <= MAX_OPS && was <= MAX_OPS - records
}

// The row of a block that is one piece of so many bytes.
fn whole_row(mark: Mark, len: u32) -> Row
    ensures { result ≡ record { mark = mark; back = record { frame = 0; index = 0 }; ops = 0; len = len } }
{
    Row {
        mark,
        back: Place { frame: 0, index: 0 },
        ops: 0,
        len,
    }
}

// No Delta joins the blocks of the pages that a block sets or splits.
fn close(index: &mut Index, mark: Mark)
    ensures value { (q : ℕ) → index_at index.new q
        ≡ (if is_closed_by q mark then None else index_at index.old q) }
    ensures len { hash_map_len index.new ≡ hash_map_len index.old }
    ensures room { spare index.new ≡ spare index.old }
{
    match mark {
        Mark::Changes(page) => forget(index, page),
        Mark::Sets(page) => forget(index, page),
        Mark::Splits(page, upper) => {
            forget(index, page);
            forget(index, upper);
        }
    }
}

// How many pages of earlier frames the map may keep when a frame begins.
//
// There is room for them beside all pages that the frame can have. One for each 64 bytes of the
// limit costs no larger table than none does, if the limit is a power of two.
fn most_kept(limit: u32) -> usize
    ensures { result ≡ limit / 64 }
{
    (limit / 64) as usize
}

// No page has an open Delta from now on; these are the rows of the frame that ends.
//
// Their pages are looked up, since a clear costs what the whole map costs, however little the frame
// has. It is cleared if it keeps too many pages for the next frame, so once for as many new pages
// as it may keep; and if the rows are so many that their look-ups cost more.
fn close_all(index: &mut Index, rows: &[Row], most: usize)
    requires told { (q : ℕ) → IsUntouched q rows.now → index_at index.old q ≡ None }
    ensures none { (q : ℕ) → index_at index.new q ≡ None }
    ensures few { hash_map_len index.new ≤ most }
    ensures room { hash_map_len index.old + spare index.old
        ≤ hash_map_len index.new + spare index.new }
{
    if index.len() > most || rows.len() > most / 8 {
        forget_all(index);
        return;
    }
    for row in rows {
        close(index, row.mark);
    }
}
