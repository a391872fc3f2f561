/// A field of the EXCEPTION_RECORD that a filter can read (Windows headers, `winnt.h`).
#[derive(Clone, Copy)]
pub enum Field {
    ExceptionCode,
    ExceptionFlags,
    NumberParameters,
    /// One of the fifteen parameters, by its index from 0 to 14.
    ExceptionInformation(u64),
}
