//! The scrap.
ghost use Rattle.std.specs.Prelude.{◌≡◌, ◌≤◌, [], false, nat_lt, length, is_ok, IfOk, IfErr, if◌then◌else◌};

use std::alloc::Global;
use std::marker::Model;
use tb_geom::Refusal;
use text_lines::MOST_TEXT;

/// The bytes that were cut or copied last, at most 32000 (*Inside Macintosh* I, "The Scrap Manager"). Contracts see the list
/// of the bytes.
#[derive(Drop)]
pub struct Scrap {
    bytes: Vec<u8>,
}

impl Model for Scrap {
    ghost use Rattle.std.specs.Prelude.{List, ℕ, ◌≤◌, length};

    ghost Value = { List ℕ };

    ghost view = { λ s. s.bytes.items };

    ghost invariant = { λ s. length s.bytes.items ≤ 32000 };
}

impl Scrap {
    /// A scrap without bytes. It takes no memory.
    pub fn new(alloc: Global) -> Scrap
        ensures { result ≡ [] }
    {
        Scrap {
            bytes: Vec::new(alloc),
        }
    }

    /// The bytes.
    pub fn bytes(&self) -> &[u8]
        ensures bytes { result.now ≡ self.now }
        ensures short { length result.now ≤ 32000 }
    {
        self.bytes.as_slice()
    }

    /// Puts other bytes in the place of all. TooLong where there are more than 32000, NoMemory where there is no memory for
    /// them.
    pub fn set(&mut self, bytes: &[u8]) -> Result<(), Refusal>
        ensures scrap { self.new ≡ (if is_ok result then bytes.now else self.old) }
        ensures allowed { IfOk result (λ _. length bytes.now ≤ 32000) }
        ensures refused { IfErr result (λ e.
            e ≡ (if nat_lt 32000 (length bytes.now) then Refusal.TooLong else Refusal.NoMemory)) }
    {
        if bytes.len() > MOST_TEXT {
            return Err(Refusal::TooLong);
        }
        self.bytes.reserve(bytes.len())?;
        self.bytes.clear();
        let _ = self.bytes.extend_from_slice(bytes);
        Ok(())
    }
}
