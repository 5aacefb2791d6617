ghost use Rattle.std.specs.Prelude.{◌≡◌, ◌⊎◌, ◌↔◌, ◌<◌, ◌-◌, None, length, take, IfOk, IfSome};
ghost use Rattle.mu_outside.specs.Scenes.{start, printed_by};
ghost use Rattle.mu_outside.specs.Moments.{Since};
ghost use Rattle.mu_outside.specs.Images.{IsFilled, IsInside, disk_inside};

use crate::logs::Log;
use crate::replays::replayed;
use mu_tree::{Bytes, NoMemory};
use std::alloc::Global;

impl Log {
    /// An image of a moment inside the call of this number, from 1, and the bytes that were printed when it ended.
    ///
    /// # Errors
    ///
    /// `NoMemory`.
    pub(crate) fn image(
        &self,
        alloc: Global,
        number: u64,
        fill: u8,
        long: bool,
    ) -> Result<Option<(Bytes, Bytes)>, NoMemory>
        ensures none { IfOk result (λ answer. (answer ≡ None) ↔ ((number ≡ 0) ⊎ (length self.now.calls < number))) }
        ensures inside { IfOk result (λ answer. IfSome answer (λ pair. IsInside self.now.first self.now.calls number pair.0 pair.1)) }
        ensures filled { IfOk result (λ answer. IfSome answer (λ pair. IfSome (disk_inside self.now.first self.now.calls number) (λ disk. IsFilled fill long disk pair.0))) }
        ensures told { IfOk result (λ answer. IfSome answer (λ pair. pair.1 ≡ printed_by (take number self.now.calls))) }
        ensures moment { IfOk result (λ answer. IfSome answer (λ pair. Since (start self.now.first) self.now.calls (number - 1) pair.0 pair.1)) }
    {
        if number == 0 || number > self.calls.len() as u64 {
            return Ok(None);
        }
        let before = number as usize - 1;
        let mut replay = replayed(alloc, self.first.items(), &self.calls[..before])?;
        replay.enter(&self.calls[before])?;
        Ok(Some(replay.image(alloc, fill, long)?))
    }
}
