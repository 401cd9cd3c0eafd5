// The sides of a file's records.
ghost use Rattle.std.specs.Prelude.{◌≡◌, ◌<◌, [], List, length, slice_index_or};

/// What the records of a file are compared by: one list of sides per record, one side per field.
pub trait Sides<S> {
    /// The sides, record by record.
    ghost all: { Self → List (List S) };

    /// The number of records.
    fn count(&self) -> u32
        ensures { result ≡ length (all self.now) };

    /// The sides of the record at a position.
    fn sides(&self, at: u32) -> &[S]
        requires { at < length (all self.now) }
        ensures { result.now ≡ slice_index_or (all self.now) at [] };
}
