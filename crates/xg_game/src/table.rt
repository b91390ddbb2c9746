//! What is known of the sets or the outcomes of a game, by their numbers in the file.
ghost use Rattle.std.specs.Prelude.{◌≡◌, ℕ, ◌+◌, ◌<◌, ◌^◌, [], ◌∷◌, ◌++◌, None, Some, length, nat_eq, position};
ghost use Rattle.std.specs.Prelude.{slice_get, slice_set, IfSome, OnOk, OnErr};
ghost use Rattle.std.specs.Map.{keys_of, values_of};
ghost use Rattle.def_file.specs.Adding.{kept_name};
ghost use Rattle.xg_game.specs.declared.table.Described.{Described};

use crate::given::{keep_name, to_keep};
use crate::numbers::PlacedNumbers;
use std::alloc::{AllocError, Global};
use std::marker::Model;
use xg_lex::{Text, TextView};

/// What is known of a set or an outcome: the first name that is given, and what the first mention says.
#[derive(Drop)]
pub(crate) struct Described<D> {
    pub(crate) name: Option<Text>,
    pub(crate) value: D,
}

/// What is known of sets or outcomes by their numbers in the file, in the order of their first mentions.
#[derive(Drop)]
pub(crate) struct NumberTable<D> {
    numbers: PlacedNumbers,
    known: Vec<Described<D>>,
}

impl<D> Model for NumberTable<D> {
    ghost use Rattle.std.specs.Prelude.{◌≡◌, ℕ, List, length};
    ghost use Rattle.std.specs.List.{zip};
    ghost use Rattle.xg_game.specs.declared.table.Described.{Described};

    ghost Value = { List (ℕ × Described D) };

    ghost view = { λ t. zip t.numbers t.known.items };

    ghost invariant = { λ t. length t.known.items ≡ length t.numbers };
}

impl<D: Copy> NumberTable<D> {
    /// Nothing is known.
    pub(crate) fn new(alloc: Global) -> NumberTable<D>
        ensures { result ≡ [] }
    {
        NumberTable {
            numbers: PlacedNumbers::new(alloc),
            known: Vec::new(alloc),
        }
    }

    /// How many numbers there are.
    pub(crate) fn len(&self) -> usize
        ensures { result ≡ length self.now }
    {
        self.numbers.len()
    }

    /// Where this number stands.
    #[inline(always)]
    pub(crate) fn find(&self, number: u64) -> Option<usize>
        ensures place { result ≡ position (nat_eq number) (keys_of self.now) }
        ensures within { IfSome result (λ i. i < length self.now) }
    {
        self.numbers.find(number)
    }

    /// The number at `i`.
    pub(crate) fn number(&self, i: usize) -> u64
        requires { i < length self.now }
        ensures { slice_get (keys_of self.now) i ≡ Some result }
    {
        self.numbers.get(i)
    }

    /// What is known at `i`.
    #[inline(always)]
    pub(crate) fn get(&self, i: usize) -> &Described<D>
        requires { i < length self.now }
        ensures { slice_get (values_of self.now) i ≡ Some result.now }
    {
        &self.known[i]
    }

    /// Gives a name at `i`, unless one is kept there.
    #[inline(always)]
    pub(crate) fn name(
        &mut self,
        alloc: Global,
        i: usize,
        name: &Option<TextView<'_>>,
    ) -> Result<(), AllocError>
        requires { i < length self.old }
        ensures ok { (e : ℕ × Described D) → slice_get self.old i ≡ Some e
            → OnOk result (self.new ≡ slice_set self.old i (e.0, record e.1 { name = kept_name e.1.name name.now })) }
        ensures err { OnErr result (self.new ≡ self.old) }
    {
        keep_name(alloc, &mut self.known[i].name, name)
    }

    /// Puts a number of a file last, with what is known of it.
    pub(crate) fn push(
        &mut self,
        alloc: Global,
        file: &[u8],
        number: u64,
        name: &Option<TextView<'_>>,
        value: D,
    ) -> Result<(), AllocError>
        requires new { position (nat_eq number) (keys_of self.old) ≡ None }
        requires room { length self.old + 1 < 2 ^ 32 }
        ensures ok { let described : Described D = record { name = name.now; value = value } in
            OnOk result (self.new ≡ self.old ++ (number, described) ∷ []) }
        ensures err { OnErr result (self.new ≡ self.old) }
    {
        self.known.reserve(1)?;
        let name = to_keep(alloc, name)?;
        if let Err(error) = self.numbers.push(alloc, file, number) {
            drop(name);
            return Err(error);
        }
        self.known.push_reserved(Described { name, value });
        Ok(())
    }
}
