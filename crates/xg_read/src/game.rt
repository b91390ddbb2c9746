//! The reading of a whole file.
ghost use Rattle.std.specs.Prelude.{◌≡◌, ◌≢◌, ◌-◌, ◌≤◌, false, length, IfOk, OnOk};
ghost use Rattle.def_tree.specs.Tree.{wanted};
ghost use Rattle.def_file.specs.declared.FileFault.{FileFault};
ghost use Rattle.def_file.specs.Content.{GameFile};
ghost use Rattle.def_file.specs.Reading.{entries_from, game_at, most_bytes};
ghost use Rattle.def_file_form.specs.Laws.{StandsFor};
ghost use Rattle.def_file_form.specs.First.{FirstFault};
ghost use Rattle.xg_game.specs.Refusals.{Answers};
ghost use Rattle.xg_read.specs.Gives.{GivesNext, next_at};

use crate::entries::Lists;
use crate::reader::Reader;
use def_file::FileFault;
use std::alloc::Global;
use xg_game::{Game, GameMaker, Refused};
use xg_tree::MOST_NODES;

/// One more than the greatest number of nodes: the entry behind the last one that may be is read and judged, too.
const MOST_ENTRIES: usize = MOST_NODES + 1;

/// Reads a game from the bytes of its file, of at most 67,108,864 bytes.
///
/// Memory apart, the answer is the game that the file stands for, or the file's first fault.
pub fn read_game(alloc: Global, bytes: &[u8]) -> Result<Game, Refused>
    requires { length bytes.now ≤ most_bytes }
    ensures exact { Answers result (game_at bytes.now) }

    // What is accepted has a reading without a fault and stands for its game, and each such file is accepted.
    ensures found { IfOk result (λ game. StandsFor bytes.now game) }
    ensures only { (game : GameFile) → StandsFor bytes.now game → Answers result (Ok game) }

    // A fault is the file's first, and the file's first is the fault.
    ensures first { (fault : FileFault) → result ≡ Err (Refused.File fault) → FirstFault bytes.now fault }
    ensures faults { (fault : FileFault) → FirstFault bytes.now fault → Answers result (Err fault) }
    ensures any_length { result ≢ Err (Refused.File FileFault.TooLong) }
{
    read_file(alloc, bytes)
}

#[tactic(auto, unfolding(def_file::specs::Reading::game_at))]
fn read_file(alloc: Global, bytes: &[u8]) -> Result<Game, Refused>
    requires { length bytes.now ≤ most_bytes }
    ensures { Answers result (game_at bytes.now) }
{
    let mut reader = Reader::new(bytes);
    let prologue = reader.prologue()?.to_texts(alloc)?;
    let mut maker = GameMaker::new(
        alloc,
        prologue.title,
        prologue.one,
        prologue.two,
        prologue.comment,
    );
    let mut lists = Lists::new(alloc);
    let read = read_entries(&mut reader, &mut lists, &mut maker, MOST_ENTRIES);
    drop(lists);
    if let Err(refused) = read {
        maker.discard();
        return Err(refused);
    }
    match reader.nothing() {
        Ok(_) => Ok(maker.finish()),
        Err(fault) => {
            maker.discard();
            Err(Refused::File(fault))
        }
    }
}

/// Reads entries until the tree is whole, at most `most` of them.
#[tactic(auto, using(crate::proofs::EntryByEntry::entries_done, crate::proofs::EntryByEntry::entries_stopped, crate::proofs::EntryByEntry::entries_full))]
fn read_entries<'a>(
    reader: &mut Reader<'a>,
    lists: &mut Lists<'a>,
    maker: &mut GameMaker,
    most: usize,
) -> Result<(), Refused>
    requires { maker.old.spent ≡ false }
    ensures exact { GivesNext result maker.new.contents reader.new.at
        (entries_from most maker.old.contents reader.old.whole reader.old.at) }
    ensures complete { OnOk result (wanted 1 maker.new.contents.nodes ≡ 0) }
    ensures unspent { OnOk result (maker.new.spent ≡ false) }
    ensures prologue { maker.new.prologue ≡ maker.old.prologue }
    ensures whole { reader.new.whole ≡ reader.old.whole }
{
    'entries: for _ in 0..most {
        if maker.is_complete() {
            return Ok(());
        }
        take_entry(reader, lists, maker)?;
    }
    Err(Refused::File(FileFault::TooManyNodes))
}

/// Reads the next entry and puts it last.
#[inline(always)]
fn take_entry<'a>(
    reader: &mut Reader<'a>,
    lists: &mut Lists<'a>,
    maker: &mut GameMaker,
) -> Result<(), Refused>
    requires incomplete { wanted 1 maker.old.contents.nodes ≢ 0 }
    requires unspent { maker.old.spent ≡ false }
    ensures exact { GivesNext result maker.new.contents reader.new.at
        (next_at maker.old.contents reader.old.whole reader.old.at) }
    ensures unspent { OnOk result (maker.new.spent ≡ false) }
    ensures prologue { maker.new.prologue ≡ maker.old.prologue }
    ensures whole { reader.new.whole ≡ reader.old.whole }
{
    let entry = reader.entry(lists)?;
    maker.push_entry(&entry)
}
