/// The functions that every program may call without a definition (own).
#[derive(Clone, Copy)]
pub enum BuiltIn {
    /// `void put(long long)`: writes a number.
    Put,
    /// `int protect(void *, int)`: sets the protection of a page.
    Protect,
    /// `void RaiseException(unsigned, unsigned, unsigned, unsigned long long *)`: raises an
    /// exception (Windows headers, `errhandlingapi.h`).
    RaiseException,
    /// `void walk(void)`: shows the live activations, innermost first (own).
    Walk,
    /// `int AddVectoredExceptionHandler(unsigned, NAME)`, with the number of the function that NAME
    /// names: it becomes a vectored handler (Windows headers, `errhandlingapi.h`; the name in place
    /// of a pointer is own).
    AddVectored(u64),
    /// `int RemoveVectoredExceptionHandler(NAME)`, likewise: it is one no more.
    RemoveVectored(u64),
}
