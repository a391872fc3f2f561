//! Texts that are refused, each at its first fault or at the least place of a broken rule.

/// Faults of tokens and grammar, and what is too deep or too long.
pub const TOKENS: &str = r"
# open_comment: int a /* x
=> 2 ! refused OpenComment 6
# two_letter_char: int main(void){ return 'ab'; }
=> 2 ! refused BadChar 23
# big_literal_and_open_block_big_literal: int main(void){ return 18446744073709551616; }
=> 2 ! refused BigLiteral 23
# if_without_parenthesis: int main(void){ if 1; }
=> 2 ! refused Unexpected 19
# big_literal_and_open_block_open_block: int main(void){ return 7;
=> 2 ! refused Unexpected 25
# sixty_five_parentheses: int main(void){ return (((((((((((((((((((((((((((((((((((((((((((((((((((((((((((((((((1))))))))))))))))))))))))))))))))))))))))))))))))))))))))))))))))); }
=> 2 ! refused TooDeep 87
# bad byte: int main(void){ return @; }
=> 2 ! refused BadByte 23
# minus twice: int main(void){ put(1--1); }
=> 2 ! refused Unexpected 23
# no semicolon: int main(void){ put(1) }
=> 2 ! refused Unexpected 23
# half a declaration: int main(void){ } int
=> 2 ! refused Unexpected 21
# nine parameters: int f(int a,int a,int a,int a,int a,int a,int a,int a,int a){}
=> 2 ! refused TooMany 53 parameters
# 64 operators under put: int main(void){ put(1$64*+1$); }
=> 2 ! refused TooDeep 147
# 65 operators under return: int main(void){ return 1$65**1$; }
=> 2 ! refused TooDeep 152
# 65 parentheses opened: int main(void){ return $65*($1; }
=> 2 ! refused TooDeep 87
# a text above 1 MiB: int main(void){$1048576* $}
=> 7 ! too long 1048576
";

/// Rules of names, types, places and jumps, each broken alone.
pub const RULES: &str = r"
# empty_text:
=> 2 ! refused NoMain 0
# misplaced_jumps_leave: int main(void){ __leave; }
=> 2 ! refused LeaveOutsideTry 16
# misplaced_jumps_return: int main(void){ __try{ } __finally{ return 1; } }
=> 2 ! refused JumpOutOfFinally 36
# arguments of put: int main(void){ put(1,2); }
=> 2 ! refused ArgCount 16
# unknown function: int main(void){ puts(1); }
=> 2 ! refused UnknownName 16
# return without a value: int main(void){ return; }
=> 2 ! refused TypeClash 16
# argument of main: int main(int n){ return 1; }
=> 2 ! refused TypeClash 4
# result of main: int *main(void){ return 1; }
=> 2 ! refused TypeClash 5
# an array of void with as many elements as can be: void a[18446744073709551615]; int main(void){ return 0; }
=> 2 ! refused TypeClash 5
# no main: int f(void){ return 1; }
=> 2 ! refused NoMain 0
# local twice: int main(void){ int a; int a; }
=> 2 ! refused Duplicate 27
# literal assigned: int main(void){ 1 = 2; }
=> 2 ! refused NotLvalue 16
# break without a loop: int main(void){ break; }
=> 2 ! refused JumpOutsideLoop 16
# code without a filter: int main(void){ GetExceptionCode(); }
=> 2 ! refused CodeOutsideFilter 16
# record without a filter: int main(void){ GetExceptionInformation()->ExceptionRecord->ExceptionCode; }
=> 2 ! refused InfoOutsideFilter 16
# flag without a finally: int main(void){ AbnormalTermination(); }
=> 2 ! refused AbnormalOutsideFinally 16
# initialiser of an array: int a[1] = 2; int main(void){}
=> 2 ! refused BadInitialiser 11
";
