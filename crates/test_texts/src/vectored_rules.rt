//! Programs that break the rules on vectored handlers.

/// Calls that break a rule, and the names where they mean something else.
pub const RULES: &str = r"
# a variable: int x; int main(void){ AddVectoredExceptionHandler(1, x); }
=> 2 ! refused UnknownName 54
# an unknown name: int main(void){ RemoveVectoredExceptionHandler((y)); }
=> 2 ! refused UnknownName 48
# another type: int v(unsigned c, int f){ return 0; } int main(void){ AddVectoredExceptionHandler(1, v); }
=> 2 ! refused TypeClash 85
# another result: unsigned v(unsigned c, unsigned f){ return 0; } int main(void){ AddVectoredExceptionHandler(1, v); }
=> 2 ! refused TypeClash 95
# in parentheses: void v(unsigned c, unsigned f){ } int main(void){ AddVectoredExceptionHandler(1, (v)); }
=> 2 ! refused TypeClash 81
# a known function: int main(void){ RemoveVectoredExceptionHandler(put); }
=> 2 ! refused TypeClash 47
# no name: int v(unsigned c, unsigned f){ return 0; } int main(void){ AddVectoredExceptionHandler(1, v(1, 2)); }
=> 2 ! refused TypeClash 90
# a literal: int main(void){ RemoveVectoredExceptionHandler(0); }
=> 2 ! refused TypeClash 47
# a fault of its own: int main(void){ RemoveVectoredExceptionHandler(1 + y); }
=> 2 ! refused UnknownName 51
# too few: int v(unsigned c, unsigned f){ return 0; } int main(void){ AddVectoredExceptionHandler(v); }
=> 2 ! refused ArgCount 59
# too many: int v(unsigned c, unsigned f){ return 0; } int main(void){ RemoveVectoredExceptionHandler(v, 1); }
=> 2 ! refused ArgCount 59
# not called: int main(void){ return AddVectoredExceptionHandler; }
=> 2 ! refused UnknownName 23
# declared: int RemoveVectoredExceptionHandler(void){ return 0; } int main(void){ return 0; }
=> 2 ! refused Duplicate 4
# a local of that name: int main(void){ int AddVectoredExceptionHandler; return 0; }
=> 2 ! refused Duplicate 20
# a pointer as its first argument: int v(unsigned c, unsigned f){ return 0; } int main(void){ AddVectoredExceptionHandler((int*)8, v); }
=> 2 ! refused TypeClash 87
";
