ghost use Rattle.std.specs.Prelude.{◌≡◌};
ghost use Rattle.seq_manager.specs.Numbering.{unnumbered, next_stretch, output_number, numbered};

use std::marker::Model;

/// The half range of RTP sequence numbers: a number less than this above another, modulo 65,536, is
/// the later one.
const HALF_RANGE: u16 = 32_768;

/// Gives the packets of one stream their output sequence numbers. The packets come in stretches, with
/// pauses between. The first packet of a stretch has the number one above the greatest so far, 1 at
/// first, and the others keep their distance to it, modulo 65,536.
#[derive(Debug, Drop)]
pub struct SeqManager {
    /// The greatest output number so far, 0 before the first.
    greatest: u16,
    /// What is added to a sequence number of this stretch; none before its first.
    offset: Option<u16>,
}

impl Model for SeqManager {
    ghost use Rattle.seq_manager.specs.Numbering.{Numbering};

    ghost Value = { Numbering };

    ghost view = { λ m. record { greatest = m.greatest; offset = m.offset } };
}

impl SeqManager {
    /// A manager that has numbered nothing, at the beginning of the first stretch.
    pub fn new() -> SeqManager
        ensures { result ≡ unnumbered }
    {
        SeqManager {
            greatest: 0,
            offset: None,
        }
    }

    /// Begins a further stretch. Where the one before it has no packet, nothing changes.
    pub fn sync(&mut self)
        ensures { self.new ≡ next_stretch self.old }
    {
        self.offset = None;
    }

    /// The output number of the packet that has this sequence number. A packet that comes late, 1 to
    /// 32,768 below the greatest, has a number below it too and leaves the greatest as it is.
    pub fn input(&mut self, number: u16) -> u16
        ensures output { result ≡ output_number self.old number }
        ensures state { self.new ≡ numbered self.old number }
    {
        let output = match self.offset {
            None => self.greatest.wrapping_add(1),
            Some(offset) => number.wrapping_add(offset),
        };
        self.offset = Some(output.wrapping_sub(number));
        if output.wrapping_sub(self.greatest) < HALF_RANGE {
            self.greatest = output;
        }
        output
    }
}

impl Default for SeqManager {
    ghost is_default = { λ m. m ≡ unnumbered };

    fn default() -> SeqManager {
        SeqManager::new()
    }
}
