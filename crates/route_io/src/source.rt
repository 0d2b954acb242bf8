ghost use Rattle.std.specs.Prelude.{◌<◌, length};
ghost use Rattle.route_io.specs.Sources.{Reads, SourceState};

use crate::Failed;

/// What bytes are read from.
pub trait Source {
    /// What the source has left, its files and the name selected last where it is a folder, and how often it has failed.
    ghost state: { Self → SourceState };

    /// Takes bytes from the front of what is left, and answers how many. 0 is the end of input.
    fn read(&mut self, buf: &mut [u8]) -> Result<usize, Failed>
        requires { 0 < length buf.old }
        ensures { Reads (state self.old) (state self.new) result buf.new };
}
