// Runs a task.
ghost use Rattle.std.specs.Prelude.{◌≡◌, IfOk, MatchResult, vec_items};
ghost use Rattle.refusal.specs.Demands.{FirstUnmet};
ghost use Rattle.refusal.specs.Numbers.{numbered};
ghost use Rattle.xts.specs.Calls.{call_demands, Makes};
ghost use Rattle.units.specs.Runs.{block_demands, demands_of, block_map, unit_map, forward_of, back_of, Passed, Came};

use crate::task::{CipherName, Direction, Extent, Outcome, Task};
use aes::Aes;
use cipher::Cipher;
use refusal::Refusal;
use speck::Speck;
use std::alloc::{AllocError, Global};

impl Task {
    // One block in place, under a key of the cipher's own length.
    fn pass_block<C: Cipher + Drop>(&self, block: &mut [u8]) -> Result<(), Refusal>
        ensures { Makes (block_demands (vec_items self.now.key) block.old) (block_map C.Cipher.forward C.Cipher.back self.now.direction (vec_items self.now.key) block.old) block.old result block.new }
    {
        let key = <&[u8; 32]>::try_from(self.key.as_slice()).map_err(|_| Refusal::WrongLength)?;
        let mut whole = <[u8; 16]>::try_from(&block[..]).map_err(|_| Refusal::WrongLength)?;
        let cipher = C::new(key);
        match self.direction {
            Direction::Forward => cipher.encipher(&mut whole),
            Direction::Back => cipher.decipher(&mut whole),
        }
        block.copy_from_slice(&whole);
        Ok(())
    }

    fn pass_unit<C: Cipher + Drop>(&self, number: u64, output: &mut [u8]) -> Result<(), Refusal>
        ensures { Makes (call_demands (vec_items self.now.key) (vec_items self.now.input) output.old) (unit_map C.Cipher.forward C.Cipher.back self.now.direction (vec_items self.now.key) number (vec_items self.now.input)) output.old result output.new }
    {
        match self.direction {
            Direction::Forward => xts::encipher::<C>(&self.key, number, &self.input, output),
            Direction::Back => xts::decipher::<C>(&self.key, number, &self.input, output),
        }
    }

    fn pass_by<C: Cipher + Drop>(&self, output: &mut [u8]) -> Result<(), Refusal>
        requires { output.old ≡ vec_items self.now.input }
        ensures { Passed C.Cipher.forward C.Cipher.back self.now output.old result output.new }
    {
        match self.extent {
            Extent::Block => self.pass_block::<C>(output),
            Extent::Unit(number) => self.pass_unit::<C>(number, output),
        }
    }

    // Turns its input, which the output holds, into its bytes.
    fn pass(&self, output: &mut [u8]) -> Result<(), Refusal>
        requires { output.old ≡ vec_items self.now.input }
        ensures { Passed (forward_of self.now.cipher) (back_of self.now.cipher) self.now output.old result output.new }
    {
        match self.cipher {
            CipherName::Aes256 => self.pass_by::<Aes>(output),
            CipherName::Speck => self.pass_by::<Speck>(output),
        }
    }

    // The lengths of a block, tested before any memory is asked for, since a line may be long. XTS tests those of a unit.
    fn test(&self) -> Result<(), Refusal>
        ensures { MatchResult result (λ _. Unit {0}) (λ e. FirstUnmet (demands_of self.now.extent (vec_items self.now.key) (vec_items self.now.input)) (numbered e)) }
    {
        if let Extent::Unit(_) = self.extent {
            return Ok(());
        }
        if self.key.len() != 32 {
            return Err(Refusal::WrongLength);
        }
        if self.input.len() != 16 {
            return Err(Refusal::WrongLength);
        }
        Ok(())
    }

    pub fn run(&self, heap: Global) -> Result<Outcome, AllocError>
        ensures { IfOk result (λ o. Came self.now o) }
    {
        if let Err(refusal) = self.test() {
            return Ok(Err(refusal));
        }
        let mut output = Vec::from_slice(heap, &self.input)?;
        Ok(self.pass(&mut output).map(|()| output))
    }
}
