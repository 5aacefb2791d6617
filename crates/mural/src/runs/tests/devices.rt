// Devices that a desk cannot be: one that is slow, and one whose input is too long for memory.

use mu_outside::{Desk, Failed, Outside};

/// A desk that moves one byte at a time.
pub(super) struct Drip {
    pub(super) desk: Desk,
}

impl Outside for Drip {
    ghost use Rattle.mu_outside.specs.Desks.{known_by, moment_of};
    ghost use Rattle.mu_outside.specs.DeskLaws.{desk_honest, desk_only_now, desk_counts_now, desk_earlier};

    ghost observed = { λ drip. known_by drip.desk };

    ghost moment = { λ drip. moment_of drip.desk };

    ghost honest = { λ drip. desk_honest drip.desk };

    ghost only_now = { λ drip. desk_only_now drip.desk };

    ghost counts_now = { λ drip. desk_counts_now drip.desk };

    ghost earlier = { λ drip. desk_earlier drip.desk };

    fn take(&mut self, buf: &mut [u8]) -> Result<usize, Failed> {
        let mut one = [0];
        let taken = self.desk.take(&mut one)?;
        buf[0] = one[0];
        Ok(taken)
    }

    fn tell(&mut self, piece: &[u8]) -> Result<usize, Failed> {
        self.desk.tell(&piece[..1])
    }

    fn attach(&mut self, path: &str) -> Result<(), Failed> {
        self.desk.attach(path)
    }

    fn length(&mut self) -> Result<u64, Failed> {
        self.desk.length()
    }

    fn read_at(&mut self, at: u64, buf: &mut [u8]) -> Result<usize, Failed> {
        self.desk.read_at(at, buf)
    }

    fn write_at(&mut self, at: u64, bytes: &[u8]) -> Result<(), Failed> {
        self.desk.write_at(at, bytes)
    }

    fn cut(&mut self, at: u64) -> Result<(), Failed> {
        self.desk.cut(at)
    }

    fn sync(&mut self) -> Result<(), Failed> {
        self.desk.sync()
    }
}

/// An input of so many blanks, in memory that does not grow with it, and a disk that always fails.
#[derive(Drop)]
pub(super) struct Blanks {
    pub(super) left: u64,
    pub(super) attached: bool,
}

impl Outside for Blanks {
    ghost use Rattle.std.specs.Prelude.{None, ◌-◌, ◌^◌};

    ghost observed = { λ blanks. record {
      left = None;
      told = None;
      disk = None;
      attached = blanks.attached;
      read_faults = 0;
      tell_faults = 0;
      disk_faults = 2 ^ 64 - 1;
      clock = 0;
    } };

    ghost moment = { λ blanks time image told. ⊥ };

    ghost honest = { λ blanks disk is. Prim.cc };

    ghost only_now = { λ blanks image told at. absurd at };

    ghost counts_now = { λ blanks image told is_image is_told. absurd is_image };

    ghost earlier = { λ blanks time later image told le within at. at };

    fn take(&mut self, buf: &mut [u8]) -> Result<usize, Failed> {
        buf.fill(b' ');
        let taken = self.left.min(buf.len() as u64);
        self.left -= taken;
        Ok(taken as usize)
    }

    fn tell(&mut self, piece: &[u8]) -> Result<usize, Failed> {
        Ok(piece.len())
    }

    fn attach(&mut self, _path: &str) -> Result<(), Failed> {
        self.attached = true;
        Ok(())
    }

    fn length(&mut self) -> Result<u64, Failed> {
        Err(Failed)
    }

    fn read_at(&mut self, _at: u64, _buf: &mut [u8]) -> Result<usize, Failed> {
        Err(Failed)
    }

    fn write_at(&mut self, _at: u64, _bytes: &[u8]) -> Result<(), Failed> {
        Err(Failed)
    }

    fn cut(&mut self, _at: u64) -> Result<(), Failed> {
        Err(Failed)
    }

    fn sync(&mut self) -> Result<(), Failed> {
        Err(Failed)
    }
}
