//! Texts and numbers of a file.
ghost use Rattle.def_fraction.specs.Fraction.{fits, most, whole_number};
ghost use Rattle.def_fraction.specs.Reading.{read_as_literal, read_as_whole};
ghost use Rattle.std.specs.Prelude.{◌≡◌, ◌≤◌, IfOk, IsTrue};
ghost use Rattle.def_file.specs.Reading.{literal_at, name_at, read_as_set, set_number_at, text_at, whole_at};
ghost use Rattle.xg_read.specs.Gives.{Gives};

use crate::reader::Reader;
use crate::wanted::Wanted;
use def_file::FileFault;
use xg_frac::{Frac, NumberFault, read_literal, read_whole, whole};
use xg_lex::TextView;

impl<'a> Reader<'a> {
    /// The next text token's text, where it stands.
    #[tactic(auto, using(crate::proofs::Texts::kind_is_text), unfolding(def_file::specs::Reading::text_at))]
    #[inline(always)]
    pub fn next_view(&mut self) -> Result<TextView<'a>, FileFault>
        ensures exact { Gives result self.new.at (text_at self.old.whole self.old.at) }
        ensures whole { self.new.whole ≡ self.old.whole }
    {
        let token = self.token(Wanted::Text)?;
        Ok(self.text(token))
    }

    /// A name where it stands, if one comes.
    #[tactic(auto, unfolding(def_file::specs::Reading::name_at))]
    #[inline(always)]
    pub fn name_view(&mut self) -> Result<Option<TextView<'a>>, FileFault>
        ensures exact { Gives result self.new.at (name_at self.old.whole self.old.at) }
        ensures whole { self.new.whole ≡ self.old.whole }
    {
        if !self.comes(b'"') {
            return Ok(None);
        }
        let text = self.next_view()?;
        Ok(Some(text))
    }

    /// A probability or a payoff.
    #[tactic(auto, unfolding(def_file::specs::Reading::literal_at))]
    #[inline(always)]
    pub fn literal(&mut self) -> Result<Frac, FileFault>
        ensures exact { Gives result self.new.at (literal_at self.old.whole self.old.at) }
        ensures whole { self.new.whole ≡ self.old.whole }
    {
        let token = self.token(Wanted::Number)?;
        match read_fraction(self.token_bytes(token)) {
            Ok(value) => Ok(value),
            Err(fault) => Err(FileFault::Number {
                at: token.start,
                fault,
            }),
        }
    }

    /// The number of a player or an outcome.
    #[tactic(auto, unfolding(def_file::specs::Reading::whole_at))]
    #[inline(always)]
    pub fn whole_number(&mut self) -> Result<u64, FileFault>
        ensures exact { Gives result self.new.at (whole_at self.old.whole self.old.at) }
        ensures whole { self.new.whole ≡ self.old.whole }
        ensures limit { IfOk result (λ n. n ≤ most) }
    {
        let token = self.token(Wanted::Number)?;
        match read_number(self.token_bytes(token)) {
            Ok(value) => Ok(value),
            Err(fault) => Err(FileFault::Number {
                at: token.start,
                fault,
            }),
        }
    }

    /// The number of a set, which isn't 0.
    #[tactic(auto, unfolding(def_file::specs::Reading::set_number_at))]
    #[inline(always)]
    pub fn set_number(&mut self) -> Result<u64, FileFault>
        ensures exact { Gives result self.new.at (set_number_at self.old.whole self.old.at) }
        ensures whole { self.new.whole ≡ self.old.whole }
        ensures from_one { IfOk result (λ n. 1 ≤ n) }
        ensures limit { IfOk result (λ n. n ≤ most) }
    {
        let token = self.token(Wanted::Number)?;
        match read_set(self.token_bytes(token)) {
            Ok(value) => Ok(value),
            Err(fault) => Err(FileFault::Number {
                at: token.start,
                fault,
            }),
        }
    }
}

/// The number of a set, in digits.
#[tactic(auto, unfolding(def_file::specs::Reading::read_as_set))]
#[inline(always)]
fn read_set(bytes: &[u8]) -> Result<u64, NumberFault>
    ensures exact { result ≡ read_as_set bytes.now }
    ensures from_one { IfOk result (λ n. 1 ≤ n) }
    ensures limit { IfOk result (λ n. n ≤ most) }
{
    match read_number(bytes) {
        Ok(0) => Err(NumberFault::Range),
        Ok(value) => Ok(value),
        Err(fault) => Err(fault),
    }
}

/// The number that the bytes write in digits. Most are one digit or two.
#[inline(always)]
fn read_number(bytes: &[u8]) -> Result<u64, NumberFault>
    ensures exact { result ≡ read_as_whole bytes.now }
    ensures limit { IfOk result (λ n. n ≤ most) }
{
    match bytes {
        [digit @ b'0'..=b'9'] => Ok((*digit - b'0') as u64),
        [ten @ b'0'..=b'9', one @ b'0'..=b'9'] => {
            Ok((*ten - b'0') as u64 * 10 + (*one - b'0') as u64)
        }
        _ => read_whole(bytes),
    }
}

/// The number that the bytes write as a literal. Most are one digit, with a minus or without a sign.
#[inline(always)]
fn read_fraction(bytes: &[u8]) -> Result<Frac, NumberFault>
    ensures { result ≡ read_as_literal bytes.now }
{
    match bytes {
        [digit @ b'0'..=b'9'] => Ok(small((*digit - b'0') as i64)),
        [b'-', digit @ b'0'..=b'9'] => Ok(small(-((*digit - b'0') as i64))),
        _ => read_other(bytes),
    }
}

/// The same of all other bytes.
#[inline(never)]
fn read_other(bytes: &[u8]) -> Result<Frac, NumberFault>
    ensures { result ≡ read_as_literal bytes.now }
{
    read_literal(bytes)
}

/// A whole number within the limit.
#[inline(always)]
fn small(number: i64) -> Frac
    requires { IsTrue (fits (whole_number number)) }
    ensures { result ≡ whole_number number }
{
    whole(number).unwrap()
}
