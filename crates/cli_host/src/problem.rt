/// The format of a file that a command writes.
#[derive(Clone, Copy)]
pub enum Format {
    Image,
    Client,
    /// An SVG picture.
    Picture,
}

impl Format {
    /// The first bytes of each file of this format.
    pub fn magic(self) -> &'static str {
        match self {
            Format::Image => "SEGIMAGE",
            Format::Client => "SEGC",
            Format::Picture => "<svg ",
        }
    }
}

/// Why a file can't be read or written.
#[derive(Clone, Copy)]
pub enum FileProblem {
    /// The file to read doesn't exist, or is a link to one that doesn't.
    Missing,
    /// The folder of the file to write doesn't exist, or the file is a link to one that doesn't.
    NoFolder,
    /// The file is a folder.
    Folder,
    /// The user has no permission to read the file.
    Unreadable,
    /// The user has no permission to write the file, or to make a file in its folder.
    Unwritable,
    /// The disk is full, or a quota or the limit on file sizes is reached.
    NoSpace,
    /// The file has more bytes than this limit.
    TooLong { limit: u64 },
    /// The system call failed for another reason.
    System,
    /// The command reads this file, under this name or another, so it can't write it.
    Input,
    /// The file isn't empty, and isn't of the format that would overwrite it.
    OtherFormat(Format),
}
