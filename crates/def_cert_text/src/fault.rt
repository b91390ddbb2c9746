//! Why bytes are no certificate.

/// The first fault of a certificate's text. A field is a longest run of bytes other than spaces and line feeds; places
/// count bytes from 0.
#[derive(Clone, Copy)]
pub enum CertFault {
    /// A fixed word differs, at the word, or a separator, at its own place.
    CertSyntax { at: usize },
    /// A number isn't of its form or past its range.
    CertNumber { at: usize },
    /// The text is of another version.
    CertVersion,
    /// The bytes end before a field or a separator that is needed, or right behind a field.
    CertShort,
    /// A byte follows the last line.
    CertTrailing { at: usize },
}
