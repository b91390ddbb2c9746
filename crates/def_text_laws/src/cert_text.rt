//! Laws of `def_cert_text`: the text of a certificate in both versions: one definition for who writes it and who reads
//! it, with texts that are known from outside.

pub mod plus_rows;
pub mod rows;
pub mod version_rows;

ghost use Rattle.def_cert_text.specs.Laws.{CutVersionedTextsAreShort, FirstVersionedFaultDecides};
ghost use Rattle.def_cert_text.specs.Laws.{OtherVersionsAreRefused, TextsTellVersions, VersionedReadingIsExact};
ghost use Rattle.def_cert_text.specs.Laws.{VersionedTextIsItsLines};
ghost use Rattle.def_cert_text.specs.PlusText.{PlusTextsAreNoCertificates, PlusTextsTellTheirNumbers};
ghost use Rattle.def_cert_text.specs.PlusText.{TextsHaveTheirFirstLine};

/// Reading gives a certificate, with its version, exactly where it is within its ranges and the bytes are its text.
pub fn versioned_reading_is_exact()
    ensures { VersionedReadingIsExact }
{}

/// Two certificates within their ranges whose texts are the same are the same certificate, in the same version.
pub fn texts_tell_versions()
    ensures { TextsTellVersions }
{}

/// Reading stops with a fault exactly where it is the first.
pub fn first_versioned_fault_decides()
    ensures { FirstVersionedFaultDecides }
{}

/// The text of a certificate within its ranges is short where it is cut, wherever that is.
pub fn cut_versioned_texts_are_short()
    ensures { CutVersionedTextsAreShort }
{}

/// The text is its lines one after another.
pub fn versioned_text_is_its_lines()
    ensures { VersionedTextIsItsLines }
{}

/// A text is of another version exactly where the second field of its first line is neither `1` nor `2`.
pub fn other_versions_are_refused()
    ensures { OtherVersionsAreRefused }
{}

/// The text of a certificate, also past its ranges, is its first line with the lines below.
pub fn texts_have_their_first_line()
    ensures { TextsHaveTheirFirstLine }
{}

/// The text of a run of CFR+ is no certificate: its first word is the wrong one.
pub fn plus_texts_are_no_certificates()
    ensures { PlusTextsAreNoCertificates }
{}

/// Two certificates of version 2 within their ranges whose texts under the first line of CFR+ are the same are the
/// same.
pub fn plus_texts_tell_their_numbers()
    ensures { PlusTextsTellTheirNumbers }
{}
