// Files by their names, and why one was not read.
use cmd_session::Status;
use desk_images::images::IMAGE_LIMIT;
use gg_base::NoMemory;
use gg_base::limits::{DESCRIPTION_LIMIT, SOURCE_LIMIT, TEXT_LIMIT};
use gg_outside::{Folder, FolderFault};
use std::alloc::{AllocError, Global};

/// Why a question has no answer.
#[derive(Drop)]
pub enum Trouble {
    NoMemory,
    /// A status, and the line that says why.
    Refused(Status, String),
}

impl From<NoMemory> for Trouble {
    fn from(_: NoMemory) -> Self {
        Trouble::NoMemory
    }
}

impl From<AllocError> for Trouble {
    fn from(_: AllocError) -> Self {
        Trouble::NoMemory
    }
}

/// What a file is.
#[derive(Clone, Copy)]
pub enum Form {
    Source,
    Description,
    Assembly,
    Image,
}

impl Form {
    /// What a file is by the end of its name.
    pub fn of_name(name: &str) -> Option<Form> {
        if name.ends_with(".c") {
            Some(Form::Source)
        } else if name.ends_with(".gg") {
            Some(Form::Description)
        } else if name.ends_with(".s") {
            Some(Form::Assembly)
        } else if name.ends_with(".img") {
            Some(Form::Image)
        } else {
            None
        }
    }

    /// What a file is by the word that it begins with.
    pub fn of_bytes(bytes: &[u8]) -> Form {
        let word = bytes.trim_ascii_start();
        if word.starts_with(b"version ") || word.starts_with(b"#") {
            Form::Description
        } else if word.starts_with(b".data") {
            Form::Assembly
        } else {
            Form::Source
        }
    }

    /// The most bytes of such a file.
    pub fn limit(self) -> u64 {
        match self {
            Form::Source => SOURCE_LIMIT,
            Form::Description => DESCRIPTION_LIMIT,
            Form::Assembly => TEXT_LIMIT,
            Form::Image => IMAGE_LIMIT,
        }
    }
}

/// The bytes of a file of at most so many.
pub fn file_of<F: Folder>(
    alloc: Global,
    folder: &mut F,
    name: &str,
    limit: u64,
) -> Result<Vec<u8>, Trouble> {
    let mut bytes = Vec::new(alloc);
    match folder.read_whole(name, limit, &mut bytes) {
        Ok(()) => Ok(bytes),
        Err(FolderFault::NoMemory) => Err(Trouble::NoMemory),
        Err(FolderFault::Failed) => {
            let line = format!(in alloc; "ggdesk: cannot read {name}\n")?;
            Err(Trouble::Refused(Status::FileFault, line))
        }
        Err(FolderFault::TooLong) => {
            let line = format!(in alloc;
                "ggdesk: {name} is too long: it has over {limit} bytes\n"
            )?;
            Err(Trouble::Refused(Status::TooLong, line))
        }
    }
}
