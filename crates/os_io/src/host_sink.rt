ghost use Rattle.std.specs.Prelude.{◌≡◌, ◌≤◌, ◌<◌, ◌==◌, ◌&&◌, nat_lt, length, if◌then◌else◌, IfOk, OnOk, OnErr};
ghost use Rattle.std.specs.Io.KnownBytes.{WriteAppends};
ghost use Rattle.os_io.specs.Counts.{HasRisen, raised};

use crate::errors::Failed;
use crate::sink::Sink;
use std::io::Write;
use std::marker::Model;

/// A writer of the host, as standard output. As a `Sink` it tells no bytes.
#[derive(Drop)]
pub struct HostSink<W: Write> {
    writer: W,
    faults: u64,
    empty_takes: u64,
}

impl<W: Write> Model for HostSink<W> {
    ghost use Rattle.os_io.specs.HostStates.{HostSinkState};

    ghost Value = { HostSinkState };

    ghost view = { λ s. record {
      faults = s.faults;
      empty_takes = s.empty_takes;
      contents = W.contents s.writer;
    } };
}

impl<W: Write> HostSink<W> {
    /// A sink over a writer. It takes no memory.
    pub fn new(writer: W) -> HostSink<W>
        ensures { result ≡ record { faults = 0; empty_takes = 0; contents = W.contents writer } }
    {
        HostSink {
            writer,
            faults: 0,
            empty_takes: 0,
        }
    }
}

impl<W: Write> Sink for HostSink<W> {
    ghost use Rattle.std.specs.Prelude.{None};

    ghost faults = { λ s. s.faults };

    ghost empty_takes = { λ s. s.empty_takes };

    ghost taken = { λ _. None };

    /// Makes one call of the writer and hands on its answer.
    fn write(&mut self, piece: &[u8]) -> Result<usize, Failed>
        ensures failed { OnErr result (HasRisen self.old.faults self.new.faults) }
        ensures no_fault { OnOk result (self.new.faults ≡ self.old.faults) }
        ensures faults_kept { self.old.faults ≤ self.new.faults }
        ensures empty_takes_kept { self.old.empty_takes ≤ self.new.empty_takes }
        ensures within { IfOk result (λ n. n ≤ length piece.now) }
        ensures moved { WriteAppends self.old.contents self.new.contents result piece.now }
        ensures ok { IfOk result (λ n. self.new ≡ record self.old {
          empty_takes = if (n == 0) && nat_lt 0 (length piece.now)
              then raised self.old.empty_takes 1 else self.old.empty_takes;
          contents = self.new.contents;
        }) }
        ensures err { OnErr result (self.new ≡ record self.old {
          faults = raised self.old.faults 1;
          contents = self.new.contents;
        }) }
    {
        match self.writer.write(piece) {
            Ok(count) => {
                if count == 0 && !piece.is_empty() {
                    self.empty_takes = self.empty_takes.saturating_add(1);
                }
                Ok(count)
            }
            Err(_) => {
                self.faults = self.faults.saturating_add(1);
                Err(Failed)
            }
        }
    }
}
