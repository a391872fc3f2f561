//! Programs with `__try`.

/// `__try` with `__except`.
pub const EXCEPT: &str = r"
# null_store_caught:
int main(void) {
  __try{ *(int*)0 = 1; } __except(1){ put(GetExceptionCode()==0xC0000005); }
  return 0;
}
=> 0 raise C0000005 0 write 0000000000000000 / except C0000005 / 1 / exit 0
# call_last_in_try:
void g(void){ RaiseException(0xE0000001,0,0,0); }
int main(void){ __try{ g(); } __except(1){ put(1); } return 0; }
=> 0 raise E0000001 0 / except E0000001 / 1 / exit 0
# try_last_in_function:
void g(void){ RaiseException(0xE0000001,0,0,0); }
void h(void){ __try{ g(); } __except(1){ put(1); } }
int main(void){ h(); put(2); return 0; }
=> 0 raise E0000001 0 / except E0000001 / 1 / 2 / exit 0
# leaf_fault_caught:
int f(int *p){ return *p; }
int main(void) {
  __try{ put(f((int*)8)); } __except(1){ put(GetExceptionCode()==0xC0000005); }
  return 0;
}
=> 0 raise C0000005 0 read 0000000000000008 / except C0000005 / 1 / exit 0
# registers_restored_at_landing:
int g(int a){ a = a * 3; RaiseException(0xE0000001,0,0,0); return a; }
int main(void){ int x = 5; __try{ put(g(x)); } __except(1){ put(x); } return 0; }
=> 0 raise E0000001 0 / except E0000001 / 5 / exit 0
# eight_parameters_restored_at_landing:
int g(int a, int b, int c, int d, int e, int f, int h, int i) {
  a = a * 2; b = b * 2; c = c * 2; d = d * 2; e = e * 2; f = f * 2; h = h * 2; i = i * 2;
  RaiseException(0xE0000001,0,0,0); return a + b + c + d + e + f + h + i;
}
int main(void) {
  int a = 1; int b = 2; int c = 3; int d = 4; int e = 5; int f = 6; int h = 7; int i = 8;
  __try {
    put(g(i, h, f, e, d, c, b, a));
  } __except(1) {
    put(a + 10 * b + 100 * c + 1000 * d + 10000 * e + 100000 * f + 1000000 * h + 10000000 * i);
  }
  return 0;
}
=> 0 raise E0000001 0 / except E0000001 / 87654321 / exit 0
# leaves_of_four_parameters:
int last(int a, int b, int c, int d){ return d; }
long long wide(char a, short b, unsigned c, long long d){ return c; }
int negated(int a, int b){ return -b; }
int read(char *p, short *q){ return *q; }
int main(void) {
  put(last(1, 2, 3, 4)); put(wide(1, 2, 3000000000u, 4)); put(negated(5, 6));
  __try{ put(read((char*)8, (short*)24)); } __except(1){ put(7); }
  return 0;
}
=> 0 4 / 3000000000 / -6 / raise C0000005 0 read 0000000000000018 / except C0000005 / 7 / exit 0
# store_across_pages:
int main(void) {
  protect((void*)0x20000000,2);
  __try{ *(int*)0x20000FFE = 0x01010101; } __except(1){ put(*(short*)0x20000FFE); }
  return 0;
}
=> 0 raise C0000005 0 write 0000000020001000 / except C0000005 / 0 / exit 0
# fault_address_in_filter:
int main(void) {
  __try {
    put(*(char*)0x20000003);
  } __except(put(GetExceptionInformation()->ExceptionRecord->ExceptionInformation[1]), 1) {
    put(4);
  }
  return 0;
}
=> 0 raise C0000005 0 read 0000000020000003 / filter 1 / 536870915 / answer 1 / except C0000005 / 4 / exit 0
# two_filters_of_one_fault:
int main(void) {
  __try {
    __try{ *(char*)8 = 1; } __except(0){ put(1); }
  } __except(GetExceptionInformation()->ExceptionRecord->NumberParameters) {
    put(2);
  }
  return 0;
}
=> 0 raise C0000005 0 write 0000000000000008 / filter 1 / answer 0 / filter 2 / answer 2 / except C0000005 / 2 / exit 0
";

/// `__try` with `__finally`, and jumps out of both.
pub const FINALLY: &str = r"
# filter_then_finally:
int main(void) {
  __try {
    __try{ RaiseException(0xE0000001,0,0,0); } __finally{ put(AbnormalTermination()); }
  } __except(2) {
    put(3);
  }
  return 0;
}
=> 0 raise E0000001 0 / filter 2 / answer 2 / finally 1 1 / 1 / except E0000001 / 3 / exit 0
# return_and_leave_flags_return:
int main(void){ __try{ return 5; } __finally{ put(AbnormalTermination()); } return 6; }
=> 0 finally 1 1 / 1 / exit 5
# return_and_leave_flags_leave:
int main(void){ __try{ __leave; } __finally{ put(AbnormalTermination()); } return 6; }
=> 0 finally 1 0 / 0 / exit 6
# division_faults_unhandled_overflow:
int m;
int main(void) {
  m = -2147483647 - 1;
  __try{ __try{ put(m / -1); } __finally{ put(8); } } __except(0){ put(9); }
  return 0;
}
=> 10 raise C0000095 0 / filter 2 / answer 0 / unhandled C0000095
# division_faults_unhandled_zero:
int m;
int main(void) {
  m = -2147483647 - 1;
  __try{ __try{ put(m / 0); } __finally{ put(8); } } __except(0){ put(9); }
  return 0;
}
=> 10 raise C0000094 0 / filter 2 / answer 0 / unhandled C0000094
# break_through_finally:
int main(void) {
  int i;
  for (i = 0; i < 3; i++){ __try{ if (i == 1) break; } __finally{ put(AbnormalTermination()); } }
  return i;
}
=> 0 finally 1 0 / 0 / finally 1 1 / 1 / exit 1
# break_to_a_try:
int main(void) {
  while (1){ __try{ break; } __finally{ put(1); } }
  __try{ *(int*)0 = 1; } __except(1){ put(2); }
  return 0;
}
=> 0 finally 1 1 / 1 / raise C0000005 0 write 0000000000000000 / except C0000005 / 2 / exit 0
# break_to_the_end_of_a_try:
int main(void) {
  __try{ do { __try{ break; } __finally{ put(1); } } while (1); } __finally{ put(2); }
  return 0;
}
=> 0 finally 1 1 / 1 / finally 2 0 / 2 / exit 0
# return_through_two_finallys:
int main(void){ __try{ __try{ return 4; } __finally{ put(1); } } __finally{ put(2); } return 0; }
=> 0 finally 1 1 / 1 / finally 2 1 / 2 / exit 4
# target_in_outer_activation:
int f(int n) {
  __try {
    __try{ if (n) f(n - 1); else RaiseException(0xE0000001,0,0,0); } __except(n == 1){ put(n); }
  } __finally {
    put(10 + n);
  }
  return 0;
}
int main(void){ f(1); return 0; }
=> 0 raise E0000001 0 / filter 1 / answer 0 / filter 1 / answer 1 / finally 2 1 / 10 / except E0000001 / 1 / finally 2 0 / 11 / exit 0
# locals_kept_by_local_unwind:
int main(void) {
  int i; int s = 0;
  for (i = 0; i < 4; i++) {
    __try{ if (i == 2) continue; s = s + i; } __finally{ put(AbnormalTermination()); }
  }
  put(s); return i;
}
=> 0 finally 1 0 / 0 / finally 1 0 / 0 / finally 1 1 / 1 / finally 1 0 / 0 / 4 / exit 4
# block_changes_one_local:
int g(int a) {
  int b = a + 1; int c = 1; int d = a * 3;
  __try{ d = d + 1; RaiseException(0xE0000001,0,0,0); } __finally{ c = c + a; put(c); }
  return b + c + d;
}
int main(void) {
  int x = 40; int y = 50;
  __try{ x = x + g(2); } __except(1){ put(x); put(y); }
  return y;
}
=> 0 raise E0000001 0 / finally 1 1 / 3 / except E0000001 / 40 / 50 / exit 50
# large_frames:
int g(int n) {
  int a0; int a1; int a2; int a3; int a4; int a5; int a6; int a7; int a8; int a9; int a10;
  int a11; int a12; int a13; int a14; int a15; int a16; int a17; int a18; int a19; int a20;
  int a21; int a22; int a23; int a24; int a25; int a26; int a27; int a28; int a29; int a30;
  int a31; int a32; int a33; int a34; int a35; int a36; int a37; int a38; int a39; a0 = n;
  a39 = n + 1;
  __try{ a20 = 7; *(int*)0 = 1; } __finally{ put(a0); put(a20); a39 = a39 + 100; }
  return a39;
}
int h(int n) {
  int b0; int b1; int b2; int b3; int b4; int b5; int b6; int b7; int b8; int b9; int b10;
  int b11; int b12; int b13; int b14; int b15; int b16; int b17; int b18; int b19; int b20;
  int b21; int b22; int b23; int b24; int b25; int b26; int b27; int b28; int b29; int b30;
  int b31; int b32; int b33; int b34; int b35; int b36; int b37; int b38; int b39; b39 = n;
  __try{ return b39 + 1; } __finally{ put(b39); b39 = 8; }
  return 0;
}
int main(void) {
  int c0; int c1; int c2; int c3; int c4; int c5; int c6; int c7; int c8; int c9; int c10;
  int c11; int c12; int c13; int c14; int c15; int c16; int c17; int c18; int c19; int c20;
  int c21; int c22; int c23; int c24; int c25; int c26; int c27; int c28; int c29; int c30;
  int c31; int c32; int c33; int c34; int c35; int c36; int c37; int c38; int c39; c0 = 3;
  c39 = 5;
  __try{ g(11); } __except(put(c0), c39 = 6, 1){ put(c39); }
  put(h(4)); put(c0); return c39;
}
=> 0 raise C0000005 0 write 0000000000000000 / filter 3 / 3 / answer 1 / finally 1 1 / 11 / 7 / except C0000005 / 6 / finally 2 1 / 4 / 5 / 3 / exit 6
";

/// Exceptions in filters and `__finally` blocks, and continued execution.
pub const NESTED: &str = r"
# continue_same_operand:
int *p = 0x20000000;
int f(void){ p = 0; protect((void*)0x20000000,2); return -1; }
int main(void){ __try{ put(*p); } __except(f()){ put(9); } return 0; }
=> 0 raise C0000005 0 read 0000000020000000 / filter 1 / answer -1 / 0 / exit 0
# continued_with_locals:
int f(void) {
  int a = 9; int b = 8; int c = 7; protect((void*)0x20000000,2);
  if (a + b + c == 24) return -1;
  return 0;
}
int main(void) {
  int x = 5; int y = 7; int z = 11;
  __try{ x = *(int*)0x20000000 + x * y; } __except(f()){ put(9); }
  put(x); put(y); put(z); return 0;
}
=> 0 raise C0000005 0 read 0000000020000000 / filter 1 / answer -1 / 35 / 7 / 11 / exit 0
# collided_with_locals:
void g(int a) {
  int b = a + 1;
  __try {
    __try{ RaiseException(0xE0000001,0,0,0); } __finally{ RaiseException(0xE0000002,0,0,0); }
  } __except(GetExceptionCode() == 0xE0000002) {
    put(a); put(b);
  }
}
int main(void) {
  int x = 20; int y = 30;
  __try{ g(4); put(x); put(y); } __except(1){ put(1); }
  return 0;
}
=> 0 raise E0000001 0 / filter 2 / answer 0 / finally 1 1 / raise E0000002 0 / filter 2 / answer 1 / except E0000002 / 4 / 5 / 20 / 30 / exit 0
# continued_in_a_leaf:
int f(int a, int *p, int b){ *p; return b; }
int fix(void){ int x = 8; protect((void*)0x20000000,2); return -1; }
int main(void){ __try{ put(f(1, (int*)0x20000000, 7)); } __except(fix()){ put(9); } return 0; }
=> 0 raise C0000005 0 read 0000000020000000 / filter 1 / answer -1 / 7 / exit 0
# raise_in_filter:
int c;
int bad(void){ c = c + 1; if (c == 1) RaiseException(0xE0000002,0,0,0); return 0; }
int main(void) {
  __try {
    __try{ RaiseException(0xE0000001,0,0,0); } __except(bad()){ put(8); }
  } __except(GetExceptionCode()==0xE0000002) {
    put(c);
  }
  return 0;
}
=> 0 raise E0000001 0 / filter 1 / raise E0000002 0 / filter 1 / answer 0 / filter 2 / answer 1 / except E0000002 / 2 / exit 0
# raise_in_finally:
int main(void) {
  __try {
    __try {
      __try{ RaiseException(0xE0000001,0,0,0); } __finally{ RaiseException(0xE0000002,0,0,0); }
    } __except(GetExceptionCode()==0xE0000002) {
      put(2);
    }
  } __except(1) {
    put(1);
  }
  return 0;
}
=> 0 raise E0000001 0 / filter 2 / answer 0 / finally 1 1 / raise E0000002 0 / filter 2 / answer 1 / except E0000002 / 2 / exit 0
# continue_noncontinuable:
int f(unsigned c){ if (c == 0xC0000025) return 1; return -1; }
int main(void) {
  __try{ RaiseException(0xE0000003,1,0,0); } __except(f(GetExceptionCode())){ put(3); }
  return 0;
}
=> 0 raise E0000003 1 / filter 1 / answer -1 / raise C0000025 1 / filter 1 / answer 1 / except C0000025 / 3 / exit 0
# filter_asked_once_under_collision:
void g(void){ __try{ RaiseException(0xE0000001,0,0,0); } __except(0){ put(7); } }
int main(void) {
  __try {
    __try{ g(); } __finally{ RaiseException(0xE0000002,0,0,0); }
  } __except(1) {
    put(GetExceptionCode() == 0xE0000002);
  }
  return 0;
}
=> 0 raise E0000001 0 / filter 1 / answer 0 / finally 2 1 / raise E0000002 0 / except E0000002 / 1 / exit 0
# collided_twice:
int main(void) {
  __try {
    __try {
      __try {
        __try{ RaiseException(0xE0000001,0,0,0); } __finally{ RaiseException(0xE0000002,0,0,0); }
      } __finally {
        RaiseException(0xE0000003,0,0,0);
      }
    } __except(GetExceptionCode()==0xE0000003) {
      put(3);
    }
  } __except(1) {
    put(1);
  }
  return 0;
}
=> 0 raise E0000001 0 / filter 3 / answer 0 / finally 1 1 / raise E0000002 0 / filter 3 / answer 0 / finally 2 1 / raise E0000003 0 / filter 3 / answer 1 / except E0000003 / 3 / exit 0
";

/// Faults and their records.
pub const FAULTS: &str = r"
# read of nothing:
int main(void) {
  __try {
    put(*(int*)0);
  } __except(GetExceptionInformation()->ExceptionRecord->NumberParameters == 2 &&
      GetExceptionInformation()->ExceptionRecord->ExceptionInformation[0] == 0) {
    put(1);
  }
  return 0;
}
=> 0 raise C0000005 0 read 0000000000000000 / filter 1 / answer 1 / except C0000005 / 1 / exit 0
# write of nothing:
int main(void) {
  __try {
    *(long long*)24 = 1;
  } __except(GetExceptionInformation()->ExceptionRecord->ExceptionInformation[0] == 1 &&
      GetExceptionInformation()->ExceptionRecord->ExceptionInformation[1] == 24) {
    put(GetExceptionCode());
  }
  return 0;
}
=> 0 raise C0000005 0 write 0000000000000018 / filter 1 / answer 1 / except C0000005 / 3221225477 / exit 0
# remainder by zero: int main(void){ int a; a = 0; return 7 % a; }
=> 10 raise C0000094 0 / unhandled C0000094
# fields of a record:
int main(void) {
  __try {
    RaiseException(0xE0000001,3,0,0);
  } __except(put(GetExceptionInformation()->ExceptionRecord->ExceptionCode),
      put(GetExceptionInformation()->ExceptionRecord->ExceptionFlags),
      put(GetExceptionInformation()->ExceptionRecord->NumberParameters),
      put(GetExceptionInformation()->ExceptionRecord->ExceptionInformation[14]), 7) {
  }
  return 0;
}
=> 0 raise E0000001 1 / filter 1 / 3758096385 / 1 / 0 / 0 / answer 7 / except E0000001 / exit 0
";
