//! Texts of the generated games.
ghost use Rattle.std.specs.Prelude.{◌≡◌, ◌++◌, IfOk, IsTrue};
ghost use Rattle.std.specs.Fmt.{decimal};
ghost use Rattle.xg_gen.specs.Plain.{is_plain};

use itoa::Buffer;
use std::alloc::{AllocError, Global};
use xg_lex::{Text, unescape};

/// The text of bytes without a quotation mark and without a backslash.
#[tactic(auto, using(crate::proofs::PlainBytesStay::plain_stays))]
pub(crate) fn plain(alloc: Global, bytes: &[u8]) -> Result<Text, AllocError>
    requires { IsTrue (is_plain bytes.now) }
    ensures { IfOk result (λ text. text ≡ bytes.now) }
{
    unescape(alloc, bytes)
}

/// A number between some bytes and others.
#[tactic(auto, using(crate::proofs::PlainBytesStay::plain_append, crate::proofs::PlainBytesStay::decimal_plain))]
pub(crate) fn numbered(
    alloc: Global,
    before: &[u8],
    n: u32,
    after: &[u8],
) -> Result<Text, AllocError>
    requires before { IsTrue (is_plain before.now) }
    requires after { IsTrue (is_plain after.now) }
    ensures { IfOk result (λ text. text ≡ before.now ++ (decimal n ++ after.now)) }
{
    let mut buffer = Buffer::new();
    let mut bytes = Vec::new(alloc);
    bytes.extend_from_slice(before)?;
    bytes.extend_from_slice(buffer.format(n).as_bytes())?;
    bytes.extend_from_slice(after)?;
    plain(alloc, &bytes)
}
