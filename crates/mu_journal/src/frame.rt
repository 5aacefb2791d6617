ghost use Rattle.std.specs.Prelude.{◌≡◌, IfOk};
ghost use Rattle.mu_journal.specs.Frames.{framed};
ghost use Rattle.mu_journal.specs.Formats.{IsRecord};

use mu_tree::NoMemory;
use std::alloc::Global;
use std::marker::Model;

/// A record's bytes between their length and a closed gate, as one piece. Contracts see the record's bytes.
#[derive(Drop)]
pub struct Frame {
    piece: Vec<u8>,
}

impl Model for Frame {
    ghost use Rattle.std.specs.Prelude.{List, ℕ};
    ghost use Rattle.mu_journal.specs.Frames.{unframed, IsFrame};

    ghost Value = { List ℕ };

    ghost view = { λ frame. unframed frame.piece.items };

    ghost invariant = { λ frame. IsFrame frame.piece.items };
}

impl Frame {
    /// A frame of 1 to 2^24 bytes.
    ///
    /// # Errors
    ///
    /// `NoMemory`.
    pub fn make(alloc: Global, bytes: &[u8]) -> Result<Frame, NoMemory>
        requires { IsRecord bytes.now }
        ensures { IfOk result (λ frame. frame ≡ bytes.now) }
    {
        let mut piece = Vec::with_capacity(alloc, bytes.len() + 5)?;
        piece.extend_from_slice(&(bytes.len() as u32).to_be_bytes())?;
        piece.extend_from_slice(bytes)?;
        piece.push(0)?;
        Ok(Frame { piece })
    }

    // The whole piece.
    pub(crate) fn piece(&self) -> &[u8]
        ensures value { result.now ≡ framed self.now }
        ensures valid { IsRecord self.now }
    {
        &self.piece
    }
}
