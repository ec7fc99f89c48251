//! The text of a report, as a mail has it (`docs/model.md`, "The report").

ghost use Rattle.std.specs.Prelude.{◌≡◌, ◌≤◌, string_bytes, string_len, length};
ghost use Rattle.fe_mail.specs.Limits.{longest_report};

use std::marker::Model;

/// The most bytes that a report may have.
pub const REPORT_BYTES: usize = 262_144;

/// The text of a report, which lists what waits: 1 to `REPORT_BYTES` bytes.
pub struct ReportText {
    text: String,
}

impl Drop for ReportText {
    fn drop(self) {
        let ReportText { text } = self;
        drop(text);
    }
}

impl Model for ReportText {
    ghost use Rattle.std.specs.Prelude.{List, ℕ, ◌≤◌, string_bytes, string_len};
    ghost use Rattle.fe_mail.specs.Limits.{longest_report};

    ghost Value = { List ℕ };

    ghost view = { λ a. string_bytes a.text };

    ghost invariant = { λ a. (1 ≤ string_len a.text) × (string_len a.text ≤ longest_report) };
}

impl ReportText {
    /// A report with this text, 1 to `REPORT_BYTES` bytes.
    pub fn new(text: String) -> ReportText
        requires some { 1 ≤ string_len text }
        requires few { string_len text ≤ longest_report }
        ensures { result ≡ string_bytes text }
    {
        ReportText { text }
    }

    /// The text.
    pub fn as_str(&self) -> &str
        ensures text { result.now ≡ self.now }
        ensures some { 1 ≤ length result.now }
        ensures few { length result.now ≤ longest_report }
    {
        self.text.as_str()
    }

    /// The text, without a copy.
    pub fn into_string(self) -> String
        ensures text { string_bytes result ≡ self }
        ensures some { 1 ≤ string_len result }
        ensures few { string_len result ≤ longest_report }
    {
        let ReportText { text } = self;
        text
    }
}
