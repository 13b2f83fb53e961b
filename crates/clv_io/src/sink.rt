//! Where text is printed.

ghost use Rattle.std.specs.Prelude.{◌≡◌, IsTrue};
ghost use Rattle.clv_io.specs.Sink.{SinkState, Puts};

/// Not all bytes were put.
#[derive(Clone, Copy, PartialEq, Eq, Debug)]
pub struct SinkFault;

/// A sink of bytes.
pub trait Sink {
    /// What the sink means to a contract: the bytes put, the room left, how often a call has failed,
    /// and whether it is steady.
    ghost state: { Self → SinkState };

    /// Appends all the bytes, or a prefix of them where it fails. It takes no memory.
    fn put(&mut self, bytes: &[u8]) -> Result<(), SinkFault>
        ensures { Puts (state self.old) (state self.new) bytes.now result };

    /// A steady sink tells what was put and the room that is left.
    ghost steady_tells: { (sink : Self) → IsTrue (state sink).is_steady → IsTrue (state sink).tells };
}
