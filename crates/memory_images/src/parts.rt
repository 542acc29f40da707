/// What an ELF header says about a core's headers.
#[derive(Clone, Copy, Debug, PartialEq, Eq)]
pub(crate) struct Header {
    /// Where the program headers begin.
    pub(crate) table: u64,
    /// How many there are, if fewer than 65,535.
    pub(crate) count: u16,
    /// Where the section headers begin; 0 if there are none.
    pub(crate) sections: u64,
    /// The size of one section header.
    pub(crate) section_bytes: u16,
}

/// What a program header says about a segment's bytes within the file.
#[derive(Clone, Copy, Debug, PartialEq, Eq)]
pub(crate) struct ProgramHeader {
    /// The segment's type.
    pub(crate) kind: u32,
    /// Where its bytes begin.
    pub(crate) offset: u64,
    /// How many there are.
    pub(crate) file_bytes: u64,
}
