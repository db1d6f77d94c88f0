use crate::Run;

/// The request of a command line of `segtool`.
#[derive(Drop)]
pub struct Asked<'a> {
    pub request: Request<'a>,
    /// Whether failures are explained in words.
    pub explained: bool,
}

/// What a command does. File names are as in the arguments.
#[derive(Drop)]
pub enum Request<'a> {
    New(NewImage<'a>),
    /// A task on the image in a file.
    Image { file: &'a str, task: ImageTask<'a> },
    /// Compare two images.
    Compare { one: &'a str, other: &'a str },
    Load(Load<'a>),
    Verify { image: &'a str, client: &'a str },
    Run(Run<'a>),
    /// Run clients of which some are programs or texts.
    RunSources(Run<'a>),
    Trace(Trace<'a>),
    Assemble(Assembly<'a>),
    Compile(Compilation<'a>),
    Print { client: &'a str },
    /// A text for the standard output.
    Help(String),
}

/// What is printed of an image as JSON.
#[derive(Clone, Copy)]
pub enum JsonTask<'a> {
    /// Whether it is sound.
    Check,
    /// All its numbers.
    Stat,
    /// Its objects, with their types.
    List,
    Types,
    /// All its objects with their values, or those that a name or a pattern selects.
    Show { name: Option<&'a str> },
    /// Its heap, block by block.
    Map,
}

/// A task on an image.
#[derive(Clone, Copy)]
pub enum ImageTask<'a> {
    Check,
    Json(JsonTask<'a>),
    /// Print its numbers; if `all`, further ones too.
    Stat {
        all: bool,
    },
    /// List its objects; if `typed`, with their types in words.
    List {
        typed: bool,
    },
    /// Print its types.
    Types,
    /// Show its objects with their values: all objects, or the one with a name; everything, or without long and deep parts; if
    /// `typed`, with their types in words.
    Show {
        name: Option<&'a str>,
        whole: bool,
        typed: bool,
    },
    /// Print the value of a path.
    Get {
        path: &'a str,
    },
    /// Set the number or the text at a path.
    Set {
        path: &'a str,
        value: &'a str,
    },
    /// Delete an object, or a key of a map.
    Delete {
        path: &'a str,
    },
    /// Print its content as a text that can be loaded.
    Dump,
    /// Show its heap, block by block.
    Map,
    /// Draw its heap.
    Picture(Picture<'a>),
    /// Grow it by this many bytes.
    Grow {
        extra: u32,
    },
    Shrink,
    /// Upgrade it to version 2.
    Upgrade,
}

/// How a segment finds free blocks: by sequential fit or by best fit.
#[derive(Clone, Copy)]
pub enum Allocator {
    Seq,
    Best,
}

/// How a segment keeps its index of names.
#[derive(Clone, Copy)]
pub enum Index {
    Flat,
    Tree,
}

/// A new image of an empty segment, with its size in bytes.
#[derive(Clone, Copy)]
pub struct NewImage<'a> {
    pub file: &'a str,
    pub size: u32,
    pub allocator: Allocator,
    pub index: Index,
    /// Whether `file` is overwritten even if it isn't empty.
    pub forced: bool,
}

/// A picture to write to a file.
#[derive(Clone, Copy)]
pub struct Picture<'a> {
    pub file: &'a str,
    /// Whether `file` is overwritten even if it isn't a picture.
    pub forced: bool,
}

/// A dump to load into an image.
#[derive(Clone, Copy)]
pub struct Load<'a> {
    pub text: &'a str,
    pub image: &'a str,
    /// Whether `image` is overwritten even if it isn't an image.
    pub forced: bool,
}

/// A text to assemble into a client.
#[derive(Clone, Copy)]
pub struct Assembly<'a> {
    pub text: &'a str,
    pub client: &'a str,
    /// Whether `client` is overwritten even if it isn't a client.
    pub forced: bool,
}

/// A program to compile into a client, for the types of an image or without one.
#[derive(Clone, Copy)]
pub struct Compilation<'a> {
    pub program: &'a str,
    pub client: &'a str,
    pub image: Option<&'a str>,
    /// Whether `client` is overwritten even if it isn't a client.
    pub forced: bool,
}

/// Clients to trace on an image, one after the other. Nothing is saved.
#[derive(Drop)]
pub struct Trace<'a> {
    pub image: &'a str,
    pub clients: Vec<&'a str>,
    pub input: Option<&'a str>,
    /// The steps of each client that are printed.
    pub steps: Steps,
    /// The object or variable that a printed step touches.
    pub only: Option<&'a str>,
    /// How many lines are printed at most, the last ones.
    pub last: Option<u32>,
    /// Whether what a step changes is marked.
    pub marks_changes: bool,
}

/// The steps from `first` to `last`, both included. A client's first step is 1.
#[derive(Clone, Copy)]
pub struct Steps {
    pub first: u64,
    pub last: u64,
}
