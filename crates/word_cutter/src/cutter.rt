ghost use Rattle.std.specs.Prelude.{◌≡◌, ℕ, ◌++◌, List, [], OnOk, IfErr, IfOk, IfSome, Some, Err};
ghost use Rattle.word_cutter.specs.Run.{FedAs, IsRefusal, IsStepFault};

use crate::fault::CutFault;
use crate::machine::Machine;

/// Cuts a text into words as its bytes come.
#[derive(Drop)]
pub struct Cutter<M> {
    machine: M,
    at: u64,
    fault: Option<CutFault>,
}

impl<M: Machine + Drop> Cutter<M> {
    /// A cutter that was fed nothing.
    pub fn new(machine: M) -> Cutter<M>
        requires { M.state machine ≡ M.start }
        ensures { FedAs M.step M.start result.fault result.at (M.state result.machine) [] }
    {
        Cutter {
            machine,
            at: 0,
            fault: None,
        }
    }

    // Takes the whole piece, by runs.
    fn take_all(&mut self, piece: &[u8]) -> Result<(), CutFault>
        ensures fed { OnOk result ((bytes : List ℕ)
            → FedAs M.step M.start self.old.fault self.old.at (M.state self.old.machine) bytes
            → FedAs M.step M.start self.new.fault self.new.at
            (M.state self.new.machine) (bytes ++ piece.now)) }
        ensures fault { IfErr result (λ e. (bytes : List ℕ)
            → FedAs M.step M.start self.old.fault self.old.at (M.state self.old.machine) bytes
            → IsRefusal M.step 0 M.start (bytes ++ piece.now) e) }
    {
        if piece.len() as u64 > u64::MAX - self.at {
            return Err(CutFault::OutOfMemory);
        }
        let mut done = 0;
        while done < piece.len() {
            match self.machine.take_run(self.at, &piece[done..]) {
                Ok(count) => {
                    self.at += count as u64;
                    done += count;
                }
                Err(e) => return Err(e),
            }
        }
        Ok(())
    }

    /// Takes the next piece of the text, cut anywhere. After a refusal every call answers that same refusal.
    pub fn feed(&mut self, piece: &[u8]) -> Result<(), CutFault>
        ensures fed { OnOk result ((bytes : List ℕ)
            → FedAs M.step M.start self.old.fault self.old.at (M.state self.old.machine) bytes
            → FedAs M.step M.start self.new.fault self.new.at
            (M.state self.new.machine) (bytes ++ piece.now)) }
        ensures fault { IfErr result (λ e. (bytes : List ℕ)
            → FedAs M.step M.start self.old.fault self.old.at (M.state self.old.machine) bytes
            → IsRefusal M.step 0 M.start (bytes ++ piece.now) e) }
        ensures kept { IfErr result (λ e. self.new.fault ≡ Some e) }
        ensures again { IfSome self.old.fault (λ e. result ≡ Err e) }
    {
        if let Some(e) = self.fault {
            return Err(e);
        }
        if let Err(e) = self.take_all(piece) {
            self.fault = Some(e);
            return Err(e);
        }
        Ok(())
    }

    /// The words of the whole text.
    pub fn finish(self) -> Result<M::Words, CutFault>
        ensures words { IfOk result (λ w. M.words self.at (M.state self.machine) ≡ Some w) }
        ensures fault { IfErr result (λ e. (bytes : List ℕ)
            → FedAs M.step M.start self.fault self.at (M.state self.machine) bytes
            → IsStepFault e self.at (M.words self.at (M.state self.machine))) }
        ensures again { IfSome self.fault (λ e. result ≡ Err e) }
    {
        let Cutter { machine, at, fault } = self;
        if let Some(e) = fault {
            return Err(e);
        }
        machine.end(at)
    }
}
