//! Threads, modules, the exception and the system.

ghost use Rattle.std.specs.Prelude.{◌≡◌, ◌≤◌, ◌+◌, Ok, Err, length, IfOk, IfErr, IfSome};
ghost use Rattle.minidump.specs.Lists as spec;
ghost use Rattle.minidump.specs.Streams.{AreWhole};

use crate::dump::Minidump;
use crate::layout::{
    BASE_OF_IMAGE, BUILD_NUMBER, CHECK_SUM, CV_RECORD, DIRECTORY_ENTRY_SIZE, EXCEPTION_ADDRESS,
    EXCEPTION_CODE, EXCEPTION_CONTEXT, EXCEPTION_FLAGS, EXCEPTION_INFORMATION,
    EXCEPTION_MAXIMUM_PARAMETERS, EXCEPTION_RECORD, EXCEPTION_STREAM_SIZE, EXCEPTION_THREAD_ID,
    MAJOR_VERSION, MEMORY, MEMORY_DESCRIPTOR_SIZE, MINOR_VERSION, MODULE_NAME_RVA, MODULE_SIZE,
    NUMBER_PARAMETERS, PLATFORM_ID, PRIORITY, PRIORITY_CLASS, PROCESSOR_ARCHITECTURE,
    SIZE_OF_IMAGE, STACK, START_OF_MEMORY_RANGE, STRING_LENGTH_SIZE, SUSPEND_COUNT,
    SYSTEM_INFO_SIZE, TEB, THREAD_CONTEXT, THREAD_ID, THREAD_SIZE, TIME_DATE_STAMP, UNIT_SIZE,
};
use crate::refusal::DumpErr;
use crate::stream_kind::StreamKind;
use crate::structures::{Exception, Location, MemoryDescriptor, Module, SystemInfo, Table, Thread};
use pe_image::fields::{u16_at, u32_at, u64_at};

impl MemoryDescriptor {
    /// The descriptor at an offset.
    pub fn read(bytes: &[u8], at: usize) -> MemoryDescriptor
        requires { at + MEMORY_DESCRIPTOR_SIZE ≤ length bytes.now }
        ensures { result ≡ spec.memory_descriptor_at bytes.now at }
    {
        MemoryDescriptor {
            start: u64_at(bytes, at + START_OF_MEMORY_RANGE),
            memory: Location::read(bytes, at + MEMORY),
        }
    }
}

impl Thread {
    fn read(bytes: &[u8], at: usize) -> Thread
        requires { at + THREAD_SIZE ≤ length bytes.now }
        ensures { result ≡ spec.thread_at bytes.now at }
    {
        Thread {
            thread_id: u32_at(bytes, at + THREAD_ID),
            suspend_count: u32_at(bytes, at + SUSPEND_COUNT),
            priority_class: u32_at(bytes, at + PRIORITY_CLASS),
            priority: u32_at(bytes, at + PRIORITY),
            teb: u64_at(bytes, at + TEB),
            stack: MemoryDescriptor::read(bytes, at + STACK),
            context: Location::read(bytes, at + THREAD_CONTEXT),
        }
    }
}

impl Module {
    fn read(bytes: &[u8], at: usize) -> Module
        requires { at + MODULE_SIZE ≤ length bytes.now }
        ensures { result ≡ spec.module_at bytes.now at }
    {
        Module {
            base: u64_at(bytes, at + BASE_OF_IMAGE),
            size: u32_at(bytes, at + SIZE_OF_IMAGE),
            check_sum: u32_at(bytes, at + CHECK_SUM),
            time_date_stamp: u32_at(bytes, at + TIME_DATE_STAMP),
            name_rva: u32_at(bytes, at + MODULE_NAME_RVA),
            cv_record: Location::read(bytes, at + CV_RECORD),
        }
    }
}

/// Fifteen numbers of 64 bits.
fn information(bytes: &[u8], at: usize) -> [u64; EXCEPTION_MAXIMUM_PARAMETERS]
    requires { at + 120 ≤ length bytes.now }
    ensures { result ≡ spec.words bytes.now at 0 EXCEPTION_MAXIMUM_PARAMETERS }
{
    [
        u64_at(bytes, at),
        u64_at(bytes, at + 8),
        u64_at(bytes, at + 16),
        u64_at(bytes, at + 24),
        u64_at(bytes, at + 32),
        u64_at(bytes, at + 40),
        u64_at(bytes, at + 48),
        u64_at(bytes, at + 56),
        u64_at(bytes, at + 64),
        u64_at(bytes, at + 72),
        u64_at(bytes, at + 80),
        u64_at(bytes, at + 88),
        u64_at(bytes, at + 96),
        u64_at(bytes, at + 104),
        u64_at(bytes, at + 112),
    ]
}

impl Exception {
    fn read(bytes: &[u8], at: usize) -> Exception
        requires { at + EXCEPTION_STREAM_SIZE ≤ length bytes.now }
        ensures { result ≡ spec.exception_at bytes.now at }
    {
        Exception {
            thread_id: u32_at(bytes, at + EXCEPTION_THREAD_ID),
            exception_code: u32_at(bytes, at + EXCEPTION_CODE),
            exception_flags: u32_at(bytes, at + EXCEPTION_FLAGS),
            exception_record: u64_at(bytes, at + EXCEPTION_RECORD),
            exception_address: u64_at(bytes, at + EXCEPTION_ADDRESS),
            number_parameters: u32_at(bytes, at + NUMBER_PARAMETERS),
            information: information(bytes, at + EXCEPTION_INFORMATION),
            context: Location::read(bytes, at + EXCEPTION_CONTEXT),
        }
    }
}

impl SystemInfo {
    fn read(bytes: &[u8], at: usize) -> SystemInfo
        requires { at + SYSTEM_INFO_SIZE ≤ length bytes.now }
        ensures { result ≡ spec.system_info_at bytes.now at }
    {
        SystemInfo {
            processor_architecture: u16_at(bytes, at + PROCESSOR_ARCHITECTURE),
            major_version: u32_at(bytes, at + MAJOR_VERSION),
            minor_version: u32_at(bytes, at + MINOR_VERSION),
            build_number: u32_at(bytes, at + BUILD_NUMBER),
            platform_id: u32_at(bytes, at + PLATFORM_ID),
        }
    }
}

impl<'a> Minidump<'a> {
    /// The threads, if there is a thread list.
    pub fn threads(&self, directory: Table) -> Result<Option<Table>, DumpErr>
        requires { AreWhole self.now DIRECTORY_ENTRY_SIZE directory }
        ensures answer { result ≡ spec.threads self.now directory }
        ensures records { IfOk result (λ found. IfSome found (λ t.
            AreWhole self.now THREAD_SIZE t)) }
    {
        self.list(directory, StreamKind::ThreadList, THREAD_SIZE)
    }

    /// The thread of an index, if there is one.
    pub fn thread(&self, threads: Table, index: u64) -> Option<Thread>
        ensures { result ≡ spec.thread_of self.now threads index }
    {
        let at = self.record_at(threads, THREAD_SIZE, index)?;
        Some(Thread::read(self.file(), at))
    }

    /// The modules, if there is a module list.
    pub fn modules(&self, directory: Table) -> Result<Option<Table>, DumpErr>
        requires { AreWhole self.now DIRECTORY_ENTRY_SIZE directory }
        ensures answer { result ≡ spec.modules self.now directory }
        ensures records { IfOk result (λ found. IfSome found (λ t.
            AreWhole self.now MODULE_SIZE t)) }
    {
        self.list(directory, StreamKind::ModuleList, MODULE_SIZE)
    }

    /// The module of an index, if there is one.
    pub fn module(&self, modules: Table, index: u64) -> Option<Module>
        ensures { result ≡ spec.module_of self.now modules index }
    {
        let at = self.record_at(modules, MODULE_SIZE, index)?;
        Some(Module::read(self.file(), at))
    }

    /// The UTF-16 units of the string at an offset, as bytes; what ends the string isn't among
    /// them.
    pub fn text(&self, at: u64) -> Result<&'a [u8], DumpErr>
        ensures text { IfOk result (λ b. spec.text self.now at ≡ Ok b.now) }
        ensures refused { IfErr result (λ e. spec.text self.now at ≡ Err e) }
    {
        if !self.has(at, STRING_LENGTH_SIZE) {
            return Err(DumpErr::StringTruncated { at });
        }
        let length = u32_at(self.file(), at as usize);
        let Some(units) = self.bytes(at + STRING_LENGTH_SIZE, length as u64) else {
            return Err(DumpErr::StringTruncated { at });
        };
        if length as u64 % UNIT_SIZE != 0 {
            return Err(DumpErr::StringOdd { at });
        }
        Ok(units)
    }

    /// What was raised, if there is an exception stream.
    pub fn exception(&self, directory: Table) -> Result<Option<Exception>, DumpErr>
        requires { AreWhole self.now DIRECTORY_ENTRY_SIZE directory }
        ensures { result ≡ spec.exception self.now directory }
    {
        let kind = StreamKind::Exception;
        let Some(location) = self.stream(directory, kind)? else {
            return Ok(None);
        };
        if (location.size as u64) < EXCEPTION_STREAM_SIZE {
            return Err(DumpErr::StreamShort { kind });
        }
        Ok(Some(Exception::read(self.file(), location.rva as usize)))
    }

    /// The system, if there is a stream of it.
    pub fn system_info(&self, directory: Table) -> Result<Option<SystemInfo>, DumpErr>
        requires { AreWhole self.now DIRECTORY_ENTRY_SIZE directory }
        ensures { result ≡ spec.system_info self.now directory }
    {
        let kind = StreamKind::SystemInfo;
        let Some(location) = self.stream(directory, kind)? else {
            return Ok(None);
        };
        if (location.size as u64) < SYSTEM_INFO_SIZE {
            return Err(DumpErr::StreamShort { kind });
        }
        Ok(Some(SystemInfo::read(self.file(), location.rva as usize)))
    }
}
