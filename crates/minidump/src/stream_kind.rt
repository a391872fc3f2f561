//! The kinds of streams that are read.

ghost use Rattle.std.specs.Prelude.{◌≡◌};
ghost use Rattle.minidump.specs.Streams as spec;

/// The stream types that are read (Windows headers, minidumpapiset.h, MINIDUMP_STREAM_TYPE).
/// Streams of other types are passed over.
#[derive(Clone, Copy, Debug, PartialEq, Eq)]
pub enum StreamKind {
    /// ThreadListStream: MINIDUMP_THREAD_LIST.
    ThreadList,
    /// ModuleListStream: MINIDUMP_MODULE_LIST.
    ModuleList,
    /// MemoryListStream: MINIDUMP_MEMORY_LIST.
    MemoryList,
    /// ExceptionStream: MINIDUMP_EXCEPTION_STREAM.
    Exception,
    /// SystemInfoStream: MINIDUMP_SYSTEM_INFO.
    SystemInfo,
    /// Memory64ListStream: MINIDUMP_MEMORY64_LIST.
    Memory64List,
}

impl StreamKind {
    /// Its number in the field StreamType.
    pub fn stream_type(self) -> u32
        ensures { result ≡ spec.stream_type self }
    {
        match self {
            StreamKind::ThreadList => 3,
            StreamKind::ModuleList => 4,
            StreamKind::MemoryList => 5,
            StreamKind::Exception => 6,
            StreamKind::SystemInfo => 7,
            StreamKind::Memory64List => 9,
        }
    }
}
