//! A reader of fields.
ghost use Rattle.std.specs.Prelude.{◌≡◌, ◌<◌, ◌≤◌, ◌-◌, length, IfOk, Some};
ghost use Rattle.std.specs.List.{prefix_len};
ghost use Rattle.def_cert_text.specs.Fields.{behind_field, fixed_word, number, is_field_byte, next_field};
ghost use Rattle.def_cert_text.specs.Formats.{fixed_field, whole_field, integer_field, fraction_field, nonzero_field};
ghost use Rattle.def_cert_text.specs.Formats.{read_number};
ghost use Rattle.def_cert_text.specs.CertText.{after_word, if_at_end, version_field};
ghost use Rattle.def_fraction.specs.Fraction.{most};
ghost use Rattle.def_cert_verdict.specs.Ranges.{most_printed};
ghost use Rattle.xg_cert_fields.specs.Reading.{GivesValue, if_behind};

use crate::numbers::{
    fraction_in, integer_in, nonzero_in, number_in, same_bytes, small_in, version_in,
};
use def_cert_text::{CertFault, TextVersion};
use std::marker::Model;
use xg_frac::{Frac, Ratio};

/// Reads a text from front to back.
///
/// A field is a longest run of bytes other than spaces and line feeds. After a fault the reader is of no more use.
#[derive(Drop)]
pub struct FieldReader<'a> {
    total: usize,
    left: &'a [u8],
}

impl<'a> Model for FieldReader<'a> {
    ghost use Rattle.std.specs.Prelude.{◌≤◌, length};
    ghost use Rattle.xg_cert_fields.specs.Reading.{Reading};

    ghost Value = { Reading };

    ghost view = { λ r. record { total = r.total; left = r.left.now } };

    ghost invariant = { λ r. length r.left.now ≤ r.total };
}

/// A number, and whether its line ends behind it.
#[derive(Clone, Copy)]
pub struct EndedNumber {
    pub number: u64,
    pub last: bool,
}

fn is_field_byte(byte: u8) -> bool
    ensures { result ≡ is_field_byte byte }
{
    byte != b' ' && byte != b'\n'
}

/// How many bytes stand before the first that separates.
fn field_len(bytes: &[u8]) -> usize
    ensures value { result ≡ prefix_len is_field_byte bytes.now }
    ensures within { result ≤ length bytes.now }
{
    for (i, byte) in bytes.iter().enumerate() {
        if !is_field_byte(*byte) {
            return i;
        }
    }
    bytes.len()
}

/// The field that stands next.
#[derive(Clone, Copy)]
struct NextField<'a> {
    at: usize,
    field: &'a [u8],
    behind: &'a [u8],
}

impl<'a> FieldReader<'a> {
    /// A reader before the first byte.
    pub fn new(bytes: &'a [u8]) -> FieldReader<'a>
        ensures { result ≡ record { total = length bytes.now; left = bytes.now } }
    {
        FieldReader {
            total: bytes.len(),
            left: bytes,
        }
    }

    /// A fixed word.
    #[tactic(auto, unfolding(def_cert_text::specs::Fields::read_field))]
    pub fn word(&mut self, wanted: &[u8], separator: u8) -> Result<(), CertFault>
        ensures exact { GivesValue (λ _. tt) result self.new.left
            ((fixed_field fixed_word wanted.now separator).read self.old.total self.old.left) }
        ensures total { self.new.total ≡ self.old.total }
    {
        let next = self.next_field();
        let word = same_bytes(wanted, next.field);
        self.value(
            word,
            CertFault::CertSyntax { at: next.at },
            next.behind,
            separator,
        )
    }

    /// The text's version, and its line feed.
    #[tactic(auto, unfolding(def_cert_text::specs::Fields::read_field))]
    pub fn version(&mut self) -> Result<TextVersion, CertFault>
        ensures exact { GivesValue (λ v. v) result self.new.left
            (version_field.read self.old.total self.old.left) }
        ensures total { self.new.total ≡ self.old.total }
    {
        let next = self.next_field();
        let version = version_in(next.field);
        self.value(version, CertFault::CertVersion, next.behind, b'\n')
    }

    /// A number that is known, by its digits.
    #[tactic(auto, unfolding(def_cert_text::specs::Fields::read_field))]
    pub fn known_number(&mut self, wanted: &[u8], separator: u8) -> Result<(), CertFault>
        ensures exact { GivesValue (λ _. tt) result self.new.left
            ((fixed_field number wanted.now separator).read self.old.total self.old.left) }
        ensures total { self.new.total ≡ self.old.total }
    {
        let next = self.next_field();
        let number = same_bytes(wanted, next.field);
        self.value(
            number,
            CertFault::CertNumber { at: next.at },
            next.behind,
            separator,
        )
    }

    /// A whole number of a range.
    #[tactic(auto, unfolding(def_cert_text::specs::Fields::read_field))]
    pub fn whole(&mut self, low: u64, high: u64, separator: u8) -> Result<u64, CertFault>
        ensures exact { GivesValue (λ n. n) result self.new.left
            ((whole_field low high separator).read self.old.total self.old.left) }
        ensures total { self.new.total ≡ self.old.total }
        ensures range { IfOk result (λ n. (low ≤ n) × (n ≤ high)) }
    {
        let next = self.next_field();
        let n = number_in(low, high, next.field);
        self.value(
            n,
            CertFault::CertNumber { at: next.at },
            next.behind,
            separator,
        )
    }

    /// A word, and a whole number of a range.
    pub fn named(
        &mut self,
        word: &[u8],
        low: u64,
        high: u64,
        separator: u8,
    ) -> Result<u64, CertFault>
        ensures exact { GivesValue (λ n. n) result self.new.left
            ((after_word word.now (whole_field low high separator)).read self.old.total self.old.left) }
        ensures total { self.new.total ≡ self.old.total }
        ensures range { IfOk result (λ n. (low ≤ n) × (n ≤ high)) }
    {
        self.word(word, b' ')?;
        self.whole(low, high, separator)
    }

    /// A number of at most 2^100 in size, with a sign where it is below 0.
    #[tactic(auto, unfolding(def_cert_text::specs::Fields::read_field))]
    pub fn integer(&mut self, separator: u8) -> Result<i128, CertFault>
        ensures exact { GivesValue (λ n. n) result self.new.left
            ((integer_field most_printed separator).read self.old.total self.old.left) }
        ensures total { self.new.total ≡ self.old.total }
    {
        let next = self.next_field();
        let n = integer_in(next.field);
        self.value(
            n,
            CertFault::CertNumber { at: next.at },
            next.behind,
            separator,
        )
    }

    /// A fraction in lowest terms whose parts are at most 2^100 in size.
    #[tactic(auto, unfolding(def_cert_text::specs::Fields::read_field))]
    pub fn fraction(&mut self, separator: u8) -> Result<Ratio, CertFault>
        ensures exact { GivesValue (λ f. f) result self.new.left
            ((fraction_field most_printed separator).read self.old.total self.old.left) }
        ensures total { self.new.total ≡ self.old.total }
    {
        let next = self.next_field();
        let fraction = fraction_in(next.field);
        self.value(
            fraction,
            CertFault::CertNumber { at: next.at },
            next.behind,
            separator,
        )
    }

    /// A fraction in lowest terms whose parts are at most 2^62 in size.
    #[tactic(auto, unfolding(def_cert_text::specs::Fields::read_field))]
    pub fn small(&mut self, separator: u8) -> Result<Frac, CertFault>
        ensures exact { GivesValue (λ f. f) result self.new.left
            ((fraction_field most separator).read self.old.total self.old.left) }
        ensures total { self.new.total ≡ self.old.total }
    {
        let next = self.next_field();
        let fraction = small_in(next.field);
        self.value(
            fraction,
            CertFault::CertNumber { at: next.at },
            next.behind,
            separator,
        )
    }

    /// The same of a fraction that isn't 0.
    #[tactic(auto, unfolding(def_cert_text::specs::Fields::read_field))]
    pub fn nonzero(&mut self, separator: u8) -> Result<Frac, CertFault>
        ensures exact { GivesValue (λ f. f) result self.new.left
            ((nonzero_field most separator).read self.old.total self.old.left) }
        ensures total { self.new.total ≡ self.old.total }
    {
        let next = self.next_field();
        let fraction = nonzero_in(next.field);
        self.value(
            fraction,
            CertFault::CertNumber { at: next.at },
            next.behind,
            separator,
        )
    }

    /// A whole number of a range, with a space or a line feed behind it.
    #[tactic(auto, unfolding(def_cert_text::specs::Formats::read_number))]
    pub fn number_with_end(&mut self, low: u64, high: u64) -> Result<EndedNumber, CertFault>
        ensures exact { GivesValue (λ n. (n.number, n.last)) result self.new.left
            (read_number low high self.old.total self.old.left) }
        ensures total { self.new.total ≡ self.old.total }
    {
        let next = self.next_field();
        let [end, left @ ..] = next.behind else {
            return Err(CertFault::CertShort);
        };
        let Some(number) = number_in(low, high, next.field) else {
            return Err(CertFault::CertNumber { at: next.at });
        };
        self.left = left;
        let last = *end == b'\n';
        Ok(EndedNumber { number, last })
    }

    /// The end of the text.
    pub fn end(&self) -> Result<(), CertFault>
        ensures { result ≡ if_at_end self.now.total (tt {0}) self.now.left }
    {
        if !self.left.is_empty() {
            return Err(CertFault::CertTrailing {
                at: self.total - self.left.len(),
            });
        }
        Ok(())
    }

    fn next_field(&self) -> NextField<'a>
        ensures at { result.at ≡ self.now.total - length self.now.left }
        ensures field { result.field.now ≡ next_field self.now.left }
        ensures behind { result.behind.now ≡ behind_field self.now.left }
        ensures within { length result.behind.now ≤ self.now.total }
    {
        let (field, behind) = self.left.split_at(field_len(self.left));
        NextField {
            at: self.total - self.left.len(),
            field,
            behind,
        }
    }

    /// The value of a field, or the fault where it has none, and the separator, which is the first byte behind it.
    fn value<T: Copy>(
        &mut self,
        value: Option<T>,
        unfit: CertFault,
        behind: &'a [u8],
        separator: u8,
    ) -> Result<T, CertFault>
        requires { length behind.now ≤ self.old.total }
        ensures exact { GivesValue (λ v. v) result self.new.left
            (if_behind unfit separator self.old.total value behind.now) }
        ensures total { self.new.total ≡ self.old.total }
        ensures read { IfOk result (λ v. value ≡ Some v) }
    {
        let [first, left @ ..] = behind else {
            return Err(CertFault::CertShort);
        };
        let Some(value) = value else {
            return Err(unfit);
        };
        if *first != separator {
            return Err(CertFault::CertSyntax {
                at: self.total - behind.len(),
            });
        }
        self.left = left;
        Ok(value)
    }
}
