//! The programs of examples/, as they are there, each with the text beside it.

/// An exception that a filter accepts, or nobody; a body that is left, and an exception that is
/// continued; an exception in a filter and in a `__finally` block; a walk.
pub const EXAMPLES: &str = r"
# sum: int main(void){ put(2+3*4); return 7; }
=> 0 14 / exit 7
# accept:
// A filter decides: above 0 it accepts, and the block of the __except runs.
int main(void) {
  __try {
    RaiseException(0xE0000001, 0, 0, 0);
    put(1);
  } __except (GetExceptionCode() == 0xE0000001) {
    put(2);
  }
  return 0;
}
=> 0 raise E0000001 0 / filter 1 / answer 1 / except E0000001 / 2 / exit 0
# search:
// A filter that answers 0 leaves the exception to the next one outside.
int main(void) {
  __try {
    __try {
      *(int *)0 = 1;
    } __except (GetExceptionCode() == 0xC0000094) {
      put(1);
    }
  } __except (GetExceptionCode() == 0xC0000005) {
    put(2);
  }
  return 0;
}
=> 0 raise C0000005 0 write 0000000000000000 / filter 1 / answer 0 / filter 2 / answer 1 / except C0000005 / 2 / exit 0
# order:
// Filters run first, while all frames are live; the __finally blocks run after one has accepted.
int say(int n) { put(n); return 1; }
void inner(void) {
  __try {
    RaiseException(0xE0000001, 0, 0, 0);
  } __finally {
    put(20);
  }
}
int main(void) {
  __try {
    inner();
  } __except (say(10)) {
    put(30);
  }
  return 0;
}
=> 0 raise E0000001 0 / filter 2 / 10 / answer 1 / finally 1 1 / 20 / except E0000001 / 30 / exit 0
# unhandled:
// Where no filter accepts, the run ends as unhandled, and no __finally block runs.
int zero;
int main(void) {
  __try {
    put(1 / zero);
  } __finally {
    put(8);
  }
  return 0;
}
=> 10 raise C0000094 0 / unhandled C0000094
# leave:
// AbnormalTermination is 0 after __leave, and 1 after a return out of the body.
int f(int n) {
  __try {
    if (n == 0) __leave;
    return 5;
  } __finally {
    put(AbnormalTermination());
  }
  return 6;
}
int main(void) {
  put(f(0));
  put(f(1));
  return 0;
}
=> 0 finally 1 0 / 0 / 6 / finally 1 1 / 1 / 5 / exit 0
# loop:
// A break or continue out of a __try runs its __finally block first.
int main(void) {
  int i;
  for (i = 0; i < 3; ++i) {
    __try {
      if (i == 1) continue;
      if (i == 2) break;
      put(i);
    } __finally {
      put(10 + i);
    }
  }
  put(i);
  return 0;
}
=> 0 0 / finally 1 0 / 10 / finally 1 1 / 11 / finally 1 1 / 12 / 2 / exit 0
# continue:
// A filter that answers below 0 has the refused access made again, at the same address.
int *p = 0x20000000;
int mend(void) {
  p = 0;
  protect((void *)0x20000000, 2);
  return EXCEPTION_CONTINUE_EXECUTION;
}
int main(void) {
  __try {
    put(*p);
  } __except (mend()) {
    put(9);
  }
  return 0;
}
=> 0 raise C0000005 0 read 0000000020000000 / filter 1 / answer -1 / 0 / exit 0
# noncontinuable:
// Continuing a noncontinuable exception raises C0000025 at the same place.
int f(unsigned code) {
  if (code == 0xC0000025) return EXCEPTION_EXECUTE_HANDLER;
  return EXCEPTION_CONTINUE_EXECUTION;
}
int main(void) {
  __try {
    RaiseException(0xE0000003, 1, 0, 0);
  } __except (f(GetExceptionCode())) {
    put(3);
  }
  return 0;
}
=> 0 raise E0000003 1 / filter 1 / answer -1 / raise C0000025 1 / filter 1 / answer 1 / except C0000025 / 3 / exit 0
# nested:
// An exception in a filter searches from there, then from the first raise; accepted, it takes its
// place.
int count;
int bad(void) {
  count = count + 1;
  if (count == 1) RaiseException(0xE0000002, 0, 0, 0);
  return 0;
}
int main(void) {
  __try {
    __try {
      RaiseException(0xE0000001, 0, 0, 0);
    } __except (bad()) {
      put(8);
    }
  } __except (GetExceptionCode() == 0xE0000002) {
    put(count);
  }
  return 0;
}
=> 0 raise E0000001 0 / filter 1 / raise E0000002 0 / filter 1 / answer 0 / filter 2 / answer 1 / except E0000002 / 2 / exit 0
# collided:
// An exception in a __finally block that an unwinding runs: its own unwinding replaces the older
// one.
int main(void) {
  __try {
    __try {
      __try {
        RaiseException(0xE0000001, 0, 0, 0);
      } __finally {
        RaiseException(0xE0000002, 0, 0, 0);
      }
    } __except (GetExceptionCode() == 0xE0000002) {
      put(2);
    }
  } __except (1) {
    put(1);
  }
  return 0;
}
=> 0 raise E0000001 0 / filter 2 / answer 0 / finally 1 1 / raise E0000002 0 / filter 2 / answer 1 / except E0000002 / 2 / exit 0
# walk:
// walk() names the live functions, innermost first: while a filter runs all of them are live, and
// in the __except block those that it called are gone.
int asks(void) { walk(); return 1; }
void fails(void) { RaiseException(0xE0000001, 0, 0, 0); }
void works(void) { fails(); }
int main(void) {
  __try {
    works();
  } __except (asks()) {
    walk();
  }
  return 0;
}
=> 0 raise E0000001 0 / filter 1 / at asks / at fails / at works / at main / answer 1 / except E0000001 / at main / exit 0
# array:
// A function's array and a pointer to its variable: what a callee wrote before it raised is there.
int fill(int *a, int n, int *done) {
  int i;
  for (i = 0; i < n; i++) {
    if (i == 3)
      RaiseException(0xE0000001, 0, 0, 0);
    a[i] = i * i;
    *done = i + 1;
  }
  return n;
}
int main(void) {
  int squares[5];
  int done = 0;
  int i;
  __try {
    fill(squares, 5, &done);
  } __except (done < 5) {
    put(done);
  }
  for (i = 0; i < 5; i++)
    put(squares[i]);
  return 0;
}
=> 0 raise E0000001 0 / filter 1 / answer 1 / except E0000001 / 3 / 0 / 1 / 4 / 0 / 0 / exit 0
# vectored:
// A vectored handler is asked before the handlers of frames: this one counts all exceptions, and
// mends accesses of the arena.
int seen = 0;
int watch(unsigned code, unsigned flags) {
  seen++;
  if (code == 0xC0000005) {
    protect((void *)0x20000000, 2);
    return -1;
  }
  return 0;
}
int main(void) {
  AddVectoredExceptionHandler(1, watch);
  put(*(int *)0x20000000);
  __try {
    RaiseException(0xE0000001, 0, 0, 0);
  } __except (1) {
    put(seen);
  }
  RemoveVectoredExceptionHandler(watch);
  __try {
    RaiseException(0xE0000002, 0, 0, 0);
  } __except (1) {
    put(seen);
  }
  return 0;
}
=> 0 raise C0000005 0 read 0000000020000000 / 0 / raise E0000001 0 / except E0000001 / 2 / raise E0000002 0 / except E0000002 / 2 / exit 0
";
