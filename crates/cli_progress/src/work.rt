/// What a command does for long.
#[derive(Clone, Copy, PartialEq, Eq)]
pub enum Work {
    /// Reading a file, measured in bytes.
    Reading,
    /// Writing a file, measured in bytes.
    Writing,
    /// Checking an image, which isn't measured.
    Checking,
    /// Running a client, measured in steps. A client may end long before its last possible step.
    Running,
    /// Making the objects that the lines of a dump describe, measured in bytes of the text.
    Loading,
    /// Looking for the blocks of the heap, measured in bytes of the heap.
    Scanning,
    /// Looking up the objects, measured in names.
    Listing,
    /// Finding the object that each block belongs to, measured in values.
    Mapping,
    /// Making the text about an image, measured in values, blocks or objects.
    Printing,
    /// Collecting the values that are compared, measured in values.
    Collecting,
    /// Comparing the values of an object, measured in values.
    Comparing,
}

impl Work {
    /// The word for the work, as a user reads it.
    pub fn word(self) -> &'static str {
        match self {
            Work::Reading => "reading",
            Work::Writing => "writing",
            Work::Checking => "checking",
            Work::Running => "running",
            Work::Loading => "loading",
            Work::Scanning => "scanning",
            Work::Listing => "listing",
            Work::Mapping => "mapping",
            Work::Printing => "printing",
            Work::Collecting => "collecting",
            Work::Comparing => "comparing",
        }
    }
}
