//! Laws of documents. Each function does nothing: its contract is the law.

ghost use Rattle.plan_wire.specs.ReadBack.{ReadBack, ReadInDocument};

/// The text that is printed for a certificate is JSON, and its value is read as that certificate.
pub fn read_back()
    ensures { ReadBack }
{}

/// A document of `check` that has that value as its `certificate` is read with that certificate, and not refused for it.
pub fn read_in_document()
    ensures { ReadInDocument }
{}
