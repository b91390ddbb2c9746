//! The prologue of a file.
ghost use Rattle.std.specs.Prelude.{◌≡◌, ℕ, ◌+◌, ◌-◌, ◌^◌, ◌<◌, ◌≤◌, [], ◌∷◌, ◌++◌, List, length, IfOk};
ghost use Rattle.def_file.specs.Reading.{names_from, prologue_at, most_bytes};
ghost use Rattle.xg_read.specs.Gives.{GivesSeen};
ghost use Rattle.xg_read.specs.Mentions.{AreFirstNames, GivesNames, IsBoth, prologue_of, read_prologue};

use crate::reader::Reader;
use crate::wanted::Wanted;
use def_file::FileFault;
use std::alloc::{AllocError, Global};
use xg_lex::{Text, TextView};

/// The first two names of players, and how many there are.
#[derive(Drop)]
pub struct PlayerNames<'a> {
    pub one: Option<TextView<'a>>,
    pub two: Option<TextView<'a>>,
    pub count: u32,
}

/// The texts of a prologue, where they stand.
#[derive(Drop)]
pub struct PrologueViews<'a> {
    title: TextView<'a>,
    one: TextView<'a>,
    two: TextView<'a>,
    comment: TextView<'a>,
}

/// The texts of a prologue.
#[derive(Drop)]
pub struct PrologueTexts {
    pub title: Text,
    pub one: Text,
    pub two: Text,
    pub comment: Text,
}

impl<'a> PrologueViews<'a> {
    /// The same texts, apart from the file.
    pub fn to_texts(&self, alloc: Global) -> Result<PrologueTexts, AllocError>
        ensures { IfOk result (λ texts. read_prologue texts ≡ prologue_of self.now) }
    {
        Ok(PrologueTexts {
            title: self.title.to_text(alloc)?,
            one: self.one.to_text(alloc)?,
            two: self.two.to_text(alloc)?,
            comment: self.comment.to_text(alloc)?,
        })
    }
}

impl<'a> Reader<'a> {
    /// The players' names up to the closing brace.
    #[tactic(auto, using(crate::proofs::Names::names_closed, crate::proofs::Names::names_more, crate::proofs::Names::names_full), unfolding(def_file::specs::Reading::close_at))]
    fn names(&mut self) -> Result<PlayerNames<'a>, FileFault>
        requires { length self.old.whole ≤ most_bytes }
        ensures exact { GivesNames result self.new.at (names_from (length self.old.whole) [] self.old.whole
            self.old.at) }
        ensures whole { self.new.whole ≡ self.old.whole }
    {
        let mut names = PlayerNames {
            one: None,
            two: None,
            count: 0,
        };
        let most = self.len() as u32;
        'names: for _ in 0..most {
            if self.comes(b'}') {
                self.token(Wanted::Close)?;
                return Ok(names);
            }
            let text = self.next_view()?;
            names = with_name(names, text);
        }
        Err(FileFault::UnexpectedEnd)
    }
}

/// The names with one more.
#[tactic(auto, using(crate::proofs::Names::first_named, crate::proofs::Names::second_named, crate::proofs::Names::other_named))]
fn with_name<'a>(names: PlayerNames<'a>, text: TextView<'a>) -> PlayerNames<'a>
    requires { names.count < 2 ^ 32 - 1 }
    ensures first { (done : List (List ℕ)) → AreFirstNames done names.entry.one names.entry.two names.entry.count
        → AreFirstNames (done ++ text.entry ∷ []) result.one result.two result.count }
    ensures count { result.count ≡ names.entry.count + 1 }
{
    let PlayerNames { one, two, count } = names;
    match count {
        0 => PlayerNames {
            one: Some(text),
            two,
            count: 1,
        },
        1 => PlayerNames {
            one,
            two: Some(text),
            count: 2,
        },
        _ => PlayerNames {
            one,
            two,
            count: count + 1,
        },
    }
}

/// The prologue.
impl<'a> Reader<'a> {
    /// The prologue.
    #[tactic(auto, using(crate::proofs::Texts::empty_inside), unfolding(def_file::specs::Reading::prologue_at, def_file::specs::Reading::head_at, def_file::specs::Reading::behind_head, def_file_tokens::specs::Texts::unescaped))]
    pub fn prologue(&mut self) -> Result<PrologueViews<'a>, FileFault>
        requires { length self.old.whole ≤ most_bytes }
        ensures exact { GivesSeen prologue_of result self.new.at (prologue_at self.old.whole self.old.at) }
        ensures whole { self.new.whole ≡ self.old.whole }
    {
        self.token(Wanted::Marker)?;
        self.token(Wanted::Version)?;
        self.token(Wanted::Numbers)?;
        let title = self.next_view()?;
        self.token(Wanted::Open)?;
        let players = both(self.names()?)?;
        // An absent comment is the empty text.
        let comment = self.name_view()?.unwrap_or(TextView::of(b""));
        Ok(PrologueViews {
            title,
            one: players.one,
            two: players.two,
            comment,
        })
    }
}

/// The names of both players.
#[derive(Drop)]
pub struct BothNames<'a> {
    pub one: TextView<'a>,
    pub two: TextView<'a>,
}

/// The names of both players, where there are two names.
#[tactic(auto, using(crate::proofs::Names::first_there, crate::proofs::Names::second_there, crate::proofs::Names::checked_two, crate::proofs::Names::checked_other))]
fn both<'a>(names: PlayerNames<'a>) -> Result<BothNames<'a>, FileFault>
    ensures { (done : List (List ℕ)) → AreFirstNames done names.entry.one names.entry.two names.entry.count
        → IsBoth done result }
{
    let PlayerNames { one, two, count } = names;
    if count != 2 {
        return Err(FileFault::Players { count });
    }
    let Some(one) = one else {
        return Err(FileFault::Players { count });
    };
    let Some(two) = two else {
        return Err(FileFault::Players { count });
    };
    Ok(BothNames { one, two })
}
