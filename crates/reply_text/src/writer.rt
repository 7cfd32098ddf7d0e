//! Bytes that are written piece by piece.
ghost use Rattle.std.specs.Prelude.{◌≡◌, ◌++◌, ◌∷◌, [], OnOk};
ghost use Rattle.std.specs.Fmt.{decimal, signed_decimal};
ghost use Rattle.std.specs.List.{flat_map};
ghost use Rattle.db_value.specs.Version.{place_text, version_text};
ghost use Rattle.reply_text.specs.Piece.{line_end, numbered_text, field_text, record_text, count_text};

use db_value::{Fields, Name, Record, Value, VersionName};
use itoa::Buffer;
use std::alloc::{AllocError, Global};
use std::marker::Model;

/// A writer is the bytes so far.
#[derive(Drop)]
pub struct Writer {
    bytes: Vec<u8>,
}

impl Model for Writer {
    ghost use Rattle.std.specs.Prelude.{ℕ, List};

    ghost Value = { List ℕ };

    ghost view = { λ w. w.bytes.items };
}

impl Writer {
    /// Nothing yet.
    pub fn new(alloc: Global) -> Writer
        ensures { result ≡ [] }
    {
        Writer {
            bytes: Vec::new(alloc),
        }
    }

    /// What was written. It takes no memory.
    pub fn into_bytes(self) -> Vec<u8>
        ensures { result.items ≡ self }
    {
        let Writer { bytes } = self;
        bytes
    }

    pub fn text(&mut self, text: &[u8]) -> Result<(), AllocError>
        ensures { OnOk result (self.new ≡ self.old ++ text.now) }
    {
        self.bytes.extend_from_slice(text)
    }

    pub fn end_line(&mut self) -> Result<(), AllocError>
        ensures { OnOk result (self.new ≡ self.old ++ line_end) }
    {
        self.text(b"\n")
    }

    pub fn name(&mut self, name: &Name) -> Result<(), AllocError>
        ensures { OnOk result (self.new ≡ self.old ++ name.now) }
    {
        self.text(name.as_bytes())
    }

    pub fn number(&mut self, n: u64) -> Result<(), AllocError>
        ensures { OnOk result (self.new ≡ self.old ++ decimal n) }
    {
        let mut digits = Buffer::new();
        self.text(digits.format(n).as_bytes())
    }

    /// A name, and a number behind a space.
    pub fn numbered(&mut self, name: &[u8], n: u64) -> Result<(), AllocError>
        ensures { OnOk result (self.new ≡ self.old ++ numbered_text name.now n) }
    {
        self.text(name)?;
        self.text(b" ")?;
        self.number(n)
    }

    /// A version of a branch: `b`, or `b@n` where there is a position.
    pub fn place(&mut self, branch: &Name, position: Option<u64>) -> Result<(), AllocError>
        ensures { OnOk result (self.new ≡ self.old ++ place_text branch.now position) }
    {
        self.name(branch)?;
        match position {
            None => Ok(()),
            Some(n) => {
                self.text(b"@")?;
                self.number(n)
            }
        }
    }

    pub fn version(&mut self, version: &VersionName) -> Result<(), AllocError>
        ensures { OnOk result (self.new ≡ self.old ++ version_text version.now) }
    {
        self.place(&version.branch, version.position)
    }

    fn signed(&mut self, n: i64) -> Result<(), AllocError>
        ensures { OnOk result (self.new ≡ self.old ++ signed_decimal n) }
    {
        let mut digits = Buffer::new();
        self.text(digits.format(n).as_bytes())
    }

    // A field behind a space.
    fn field(&mut self, value: &Value) -> Result<(), AllocError>
        ensures { OnOk result (self.new ≡ self.old ++ field_text value.now) }
    {
        self.text(b" ")?;
        match value {
            Value::Number { value } => self.signed(*value),
            Value::Text { text } => {
                self.text(b"\"")?;
                self.text(text.as_bytes())?;
                self.text(b"\"")
            }
        }
    }

    #[tactic(auto, using(crate::proofs::Fields::next_field, crate::proofs::Fields::no_field))]
    pub fn fields(&mut self, fields: &Fields) -> Result<(), AllocError>
        ensures { OnOk result (self.new ≡ self.old ++ flat_map field_text fields.now) }
    {
        let mut walk = fields.walk();
        for _ in 0..fields.count() {
            let Some(value) = walk.next() else {
                return Ok(());
            };
            self.field(&value)?;
        }
        Ok(())
    }

    /// A record up to its last field.
    pub fn record(&mut self, row: &Record) -> Result<(), AllocError>
        ensures { OnOk result (self.new ≡ self.old ++ record_text row.now) }
    {
        self.text(b"row ")?;
        self.number(row.key)?;
        self.fields(&row.fields)
    }

    /// The last line of a list: what was counted, and how many there are.
    pub fn count(&mut self, counted: &[u8], n: usize) -> Result<(), AllocError>
        ensures { OnOk result (self.new ≡ self.old ++ count_text counted.now n) }
    {
        self.numbered(counted, n as u64)?;
        self.end_line()
    }
}
