//! Programs without handlers.

/// Expressions, calls, loops, and a recursion of 900 activations.
pub const EXPRESSIONS: &str = r"
# sum_and_return: int main(void){ put(2+3*4); return 7; }
=> 0 14 / exit 7
# conversions_and_shifts:
int main(void){ put((char)200); put(1u - 2); put(-7 / 2); put(-7 % 2); put(1 << 33); return 0; }
=> 0 -56 / 4294967295 / -3 / -1 / 2 / exit 0
# division_by_zero_traced: int main(void){ put(1/0); return 0; }
=> 10 raise C0000094 0 / unhandled C0000094
# six_arguments:
int f(int a,int b,int c,int d,int e,int g){ return a-b+c-d+e-g; }
int main(void){ put(f(1,2,3,4,5,6)); return 0; }
=> 0 -3 / exit 0
# sum_to_argument_0; --arg 0:
int main(long long n){ long long s = 0; while (n > 0){ s = s + n; n = n - 1; } put(s); return 0; }
=> 0 0 / exit 0
# sum_to_argument_9; --arg 9:
int main(long long n){ long long s = 0; while (n > 0){ s = s + n; n = n - 1; } put(s); return 0; }
=> 0 45 / exit 0
# deep_recursion:
int r(int n){ if (n == 0) return 0; return r(n - 1) + 1; }
int main(void){ put(r(900)); return 0; }
=> 0 900 / exit 0
";

/// Small programs, each with one thing that the others lack; as deep as may be, and long.
pub const SMALL: &str = r"
# sixty_four_parentheses:
int main(void) {
  return
      ((((((((((((((((((((((((((((((((((((((((((((((((((((((((((((((((1))))))))))))))))))))))))))))))))))))))))))))))))))))))))))))))));
}
=> 0 exit 1
# literal above int: int main(void){ put(2147483648); }
=> 0 2147483648 / exit 0
# unsigned literal: int main(void){ put(1u); }
=> 0 1 / exit 0
# character: int main(void){ put('a'); }
=> 0 97 / exit 0
# empty statement: int main(void){ ; }
=> 0 exit 0
# local that nothing reads: int main(void){ int a; return 1; }
=> 0 exit 1
# global after main: int main(void){ return 1; } int a;
=> 0 exit 1
# global array: int a[2] = {3, -4}; int main(void){ put(a[0] + a[1]); }
=> 0 -1 / exit 0
# negated literals are negated in their type, in globals and in locals:
long long x = -0x80000000; long long y = -1u; unsigned char c = -1u;
long long a[3] = {-1u, -1, -4294967295u};
int main(void) {
  long long z = -0x80000000; put(x); put(y); put(c); put(a[0]); put(a[1]); put(a[2]); put(z);
  z = -1u; put(z);
}
=> 0 2147483648 / 4294967295 / 255 / 4294967295 / -1 / 1 / 2147483648 / 4294967295 / exit 0
# argument that isn't given: int main(long long n){ put(n); return 2; }
=> 0 0 / exit 2
# order of evaluation:
int g;
int f(int x){ g = g * 10 + x; return x; }
int main(void) {
  int a; a = f(1) + f(2) * f(3); put(g); g = 0; a = (f(4), f(5)); put(g); put(a); return 0;
}
=> 0 123 / 45 / 5 / exit 0
# compound assignment:
int a[3] = {5, 6, 7};
int i;
int main(void) {
  i = 0; a[i++] += 10; put(i); put(a[0]); put(a[1]); a[2] <<= 33; put(a[2]); put(i--); put(--i);
  return 0;
}
=> 0 1 / 15 / 6 / 14 / 1 / -1 / exit 0
# no statement: int main(void){}
=> 0 exit 0
# to the left, and wrapping: int main(void){ put(1-2-3); put(2147483647+1); return 0-1; put(9); }
=> 0 -4 / -2147483648 / exit -1
# product that wraps: int main(void){ put(65536*65536+7*8-9*2*3); return 2-3*4+5; }
=> 0 2 / exit -5
# comments:
long main() { /* all of int */ put((017)); return 0x10*(2-1); // end
}
=> 0 15 / exit 16
# 63 operators under put: int main(void){ put(1$63*+1$); return 1; }
=> 0 64 / exit 1
# 64 operators under return: int main(void){ return 1$64**1$; }
=> 0 exit 1
# 3,000 statements: int main(void){ $3000*put(0);$return 3; }
=> 0 $3000*0 / $exit 3
";

/// Tabs and line feeds between tokens.
pub const SPACES: &str = "\n# spaces: int\tmain (\nvoid ) { put ( 1 ) ; }\n=> 0 1 / exit 0\n";

/// Runs of the machine that its turns end.
pub const TURNS: &str = r"
# deep_recursion_one_turn; --turns 1: int main(void){ put(2+3*4); return 7; }
=> 12 out of turns 1
# a loop that shows nothing; --turns 1000: int main(void){ while (1) ; return 0; }
=> 12 out of turns 1000
";

/// Runs of the meaning that nothing of a machine's could equal: by its steps, its depth, and a byte
/// of which the language says nothing.
pub const STEPS: &str = r"
# one_step_budget; --turns 1: int main(void){ put(2+3*4); return 7; }
=> 12 out of steps 1
# a loop that shows nothing; --turns 1000: int main(void){ while (1) ; return 0; }
=> 12 out of steps 1000
# deep_recursion_deep; --turns 100000000:
int r(int n){ return r(n + 1) + 1; }
int main(void){ put(r(900)); return 0; }
=> 15 deep 1001
# undefined_reserved_access: int main(void){ put(1); return *(int*)0x70000000; }
=> 14 1 / undefined 0000000070000000
";
