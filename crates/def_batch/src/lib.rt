//! A batch: the files that are solved side by side, how many of their bytes are kept, and what each of them stands
//! for. Its laws and worked rows are in `def_text_laws`.
#![tactic(auto)]

/// The most bytes that a batch keeps of its files.
pub const BATCH_ROOM: usize = 4_194_304;
