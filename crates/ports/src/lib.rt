//! The outside as the program sees it: sources, sinks, shelves of files and a gate, with versions
//! in memory.
//!
//! # What a caller can prove
//!
//! The traits say what each call does to two kinds of things, by ghost members, which are there for
//! proofs alone.
//!
//! *Bytes*, where a type tells them: what is `left` in a source, what a sink has `held`, the
//! `content` of a shelf, which maps each name to its bytes, and what is `opened` on it. Each is
//! `None` where the type does not tell, as a real file or a terminal, and then nothing is claimed
//! of bytes. Each call is an equation between what was told before and what is told now, so that calls
//! in a row are joined by rewriting: `Moves` and `Gains` of `specs/Bytes`, `with_file` and
//! `with_more` of `specs/Files`, by which only the one name changes.
//!
//! *Faults*, by counts that never fall: a source or a sink has one, a shelf one for reading and one
//! for writing, each beside the name that its last counted call worked on. A call answers `Failed`
//! only where it raised that count, at a shelf under the name that it worked on (`Rose` and
//! `RoseAt` of `specs/Faults`). Every other answer leaves counts and names (`SameFaults`). So a body that
//! answers a fault where the outside had none is refused, and the name tells which file it was.
//! A count at the last value of its type stands still, which `Rose` allows for. A call raises a
//! count by one at most.
//!
//! *Opens*, by one more count, which a shelf raises at an open alone, and by one at most. So a
//! program that opens more files than it says is refused, since on some shelf its count is above
//! what it says.
//!
//! *The buffer of a read*: a type that tells its bytes leaves what lies behind those that it moved,
//! and so all of it where it moved none. Of the others nothing is claimed, so that a real file reads
//! straight into the buffer.
//!
//! [`load`], [`load_file`], [`put_all`] and [`store_file`] speak of whole texts, over any of these
//! and in the same words: all that was left, the bytes of a file, all or a first part of what was
//! to be written.
//!
//! # The versions in memory
//!
//! [`SureSource`], [`SureSink`] and [`SureShelf`] do not fail, but where a sink is full and at a
//! create: their counts are the constant 0, or rise only there. The `room` of a sink never changes,
//! so whoever ran a program over a [`SureSink`] with room for all that it writes concludes that no
//! write failed. [`MemSource`], [`MemSink`] and [`MemShelf`] fail at the calls that they are told,
//! and move pieces as small as one likes. None of them takes memory after it was made.
#![tactic(auto)]

mod files;
mod gate;
mod kinds;
mod loading;
mod mem_shelf;
mod memory;
mod pieces;
mod putting;
mod shelf;
mod sink;
mod source;
mod sure;
mod sure_shelf;
mod text;
mod whole_files;

pub use gate::{Gate, OpenGate, Point};
pub use kinds::Kind;
pub use loading::{Loading, load};
pub use mem_shelf::MemShelf;
pub use memory::{MemSink, MemSource};
pub use putting::{Putting, put_all};
pub use shelf::{Closing, Creating, Opening, Shelf};
pub use sink::{Sink, Writing};
pub use source::{Reading, Source};
pub use sure::{SureSink, SureSource};
pub use sure_shelf::SureShelf;
pub use text::Text;
pub use whole_files::{Storing, load_file, store_file};
