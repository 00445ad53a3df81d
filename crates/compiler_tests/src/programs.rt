//! Control programs with each form of statement, clause and trap.

/// The programs, with `====` between them; a comment tells of one and those that follow.
pub(crate) const PROGRAMS: &str = r"// Ticks on the streams of an array, by their index.
int main(void) { int t[3] __attribute__((stream)); int i, x, y; for (i = 0; i < 3; i++) {
#pragma omp tick(t[i] >> i + 1)
#pragma omp tick(t[2] >> 4)
#pragma omp task input(t[i] >> x) output(t[2 - i] << y)
y = x + i;
#pragma omp task input(t[2] >> x)
;
} }
====
int main(void) { int s __attribute__((stream)), t[2] __attribute__((stream)), u __attribute__((stream)); int x;
#pragma omp tick(t[1] >> 5)
#pragma omp tick(u >> 6)
#pragma omp tick(s >> 7)
#pragma omp tick(t[0] >> 8)
#pragma omp task input(t[0] >> x, u, s)
;
}
====
int main(void) { int t[2] __attribute__((stream)); int i; for (i = 0; ; i++) {
#pragma omp tick(t[i] >> 1)
} }
====
int main(void) { int t[2] __attribute__((stream));
#pragma omp tick(t[ \
-1] >> 1 / 0)
}
====
int main(void) { int s __attribute__((stream));
#pragma omp tick(s >> 65536)
#pragma omp tick(s >> 0)
#pragma omp tick(s \
>> 65537)
}
====
int main(void) {
#pragma omp tick(osin \
>> -1)
}
====
int main(void) { int x;
#pragma omp tick(osin >> 2)
#pragma omp task input(osin >> x)
;
#pragma omp task input(osin >> x)
;
#pragma omp tick(osin >> osin_len / 0)
}
====
// Captured scalars that change between pragmas.
int main(void) { int a = 1, b, y;
#pragma omp task output(osout << y)
y = a;
a = 2; b = a * 10;
#pragma omp task output(osout << y)
y = a + b;
a++;
#pragma omp task output(osout << y) firstprivate(b)
y = a;
{ int a = 50;
#pragma omp task output(osout << y)
{ y = a + b; a = 9; }
a = a + b; b = 0; }
#pragma omp task output(osout << y)
{ int z = b; y = a + z + osin_len; }
}
====
int main(void) { int i, j; for (i = 0; i < 3; i++) { int k = i * i; for (j = 0; j < i; j++) { int y; k += j;
#pragma omp task output(osout << y)
y = i * 100 + j * 10 + k;
} } }
====
int main(void) { int y, a; for (int i = 5; i; i--) { int b = a;
#pragma omp task output(osout << y)
y = a * 10 + b;
a = i; } }
====
// Windows declared anew with other sizes, and of one name in scopes inside one another.
int main(void) { int i; for (i = 1; i < 5; i++) { int w[i], v[5 - i];
#pragma omp task input(osin >> w[i]) output(osout << v[5 - i])
v[0] = w[i - 1];
#pragma omp task input(osin >> v[0]) output(osout << w[i])
w[i - 1] = v[4 - i];
} }
====
int main(void) { int w[2], y;
#pragma omp task input(osin >> w[1]) output(osout << y)
y = w[1];
{ int w[3];
#pragma omp task input(osin >> w[2]) output(osout << y)
y = w[2];
{ int w[osin_len];
#pragma omp task input(osin >> w[3]) output(osout << y)
y = w[osin_len - 1];
}
#pragma omp task input(osin >> w[4]) output(osout << y)
y = w[3];
}
#pragma omp task input(osin >> w[5]) output(osout << y)
y = w[2];
}
====
int main(void) { int w[2]; if (osin_len > 2) { int w[4];
#pragma omp task output(osout << w[4])
w[3] = 1;
} else { int w[1];
#pragma omp task output(osout << w[1])
w[0] = 2;
}
#pragma omp task output(osout << w[2])
w[1] = 3;
}
====
int main(void) { int n = 3; int w[n]; n = 7; { int w[n], n = 2; int v[n];
#pragma omp task input(osin >> w[n]) output(osout << v[n])
{ v[0] = w[6]; v[1] = n; }
}
#pragma omp task output(osout << w[3])
w[n - 5] = n;
}
====
int main(void) { int w = 4; { int w[w];
#pragma omp task input(osin >> w[1])
;
} }
====
// Sizes and bursts that trap, and their lines.
int main(void) { int n; int w[n]; }
====
int main(void) { int w[3], v
[65537]; }
====
int main(void) { int w[2];
#pragma omp task input(osin >> w[65536])
;
#pragma omp task input(osin >> w[-1])
;
}
====
int main(void) { int w[2], v[2];
#pragma omp task output(osout << w[2], osout << v[3])
;
}
====
int main(void) { int w[2], v[2];
#pragma omp task output(osout << w[1]) input(osin >> v[65537])
;
}
====
int main(void) { int w[2], v[2];
#pragma omp task input(osin >> v[65537]) output(osout << w[1])
;
}
====
int main(void) { int w[2], x; int t[2] __attribute__((stream));
#pragma omp task input(t[2] >> x) output(osout << w[1])
;
}
====
int main(void) { int w[2], x; int t[2] __attribute__((stream));
#pragma omp task output(t[0] << w[2], t[-1] << x)
;
}
====
int main(void) { int w[2]; int t[2] __attribute__((stream));
#pragma omp task output(t[1 / 0] << w[3])
;
}
====
int main(void) { int w[2]; int t[2] __attribute__((stream));
#pragma omp task output(t[5] << w[1 / 0])
;
}
====
// Traps of the control program itself.
int main(void) { int i, y; for (i = 3; ; i--) {
#pragma omp task output(osout << y)
y = i;
y = 6 / i; } }
====
int main(void) { int i = 1; while (1) { i *= 2; i +=
i << 1; } }
====
int f(int a) { return 100 / a; } int main(void) { int y = f(4);
#pragma omp task output(osout << y)
y = y;
y = f(y - 25);
#pragma omp task
;
}
====
int main(void) { int x = 1 / 0;
#pragma omp task
;
}
====
// Control: branches, loops, `return`, `break`, `continue`.
int main(void) { return 7; }
====
int main(void) { }
====
int main(void) { ; { } { ; } ;
#pragma omp taskwait
}
====
int main(void) { int i; for (i = 0; i < 9; i++) { if (i == 2) continue; if (i == 6) return i;
#pragma omp task
;
} 
#pragma omp task
;
}
====
int main(void) { int i = 0; while (1) { int j; i++; for (j = 0; ; j++) { if (j == 2) break; if (i == j) continue;
#pragma omp task firstprivate(i, j)
;
} if (i < 4) continue; break; } }
====
int main(void) { int i; for (i = 0; i < 6; i++) if (i % 2) if (i == 3)
#pragma omp task
;
else
#pragma omp task
;
else
#pragma omp task firstprivate(i)
;
}
====
int main(void) { int i; for (i = 0; i < 2; i++)
#pragma omp task
{ int i; for (i = 0; i < 3; i++) ; }
while (i)
#pragma omp tick(osin >> i)
}
====
int main(void) { int i = 3; while (i) { i--;
#pragma omp tick(osin >> i)
#pragma omp taskwait
#pragma omp task input(osin)
;
} }
====
int main(void) { while (1) ; }
====
int main(void) { int i; for (;;) { i++;
#pragma omp task firstprivate(i)
;
if (i == 40) break; } }
====
// Calls and conditions in clauses and sizes.
int least(int a, int b) { if (a < b) return a; return b; } int size(int n) { int i, s = 0; for (i = 0; i < n; i++) s += i; return s; }
int main(void) { int t[4] __attribute__((stream)); int i; for (i = 1; i < 4; i++) { int w[size(i + 1)], v[least(i, 2)];
#pragma omp task input(t[least(i, 2) + 1] >> w[size(i) && i]) output(t[i > 1 ? 0 : 3] << v[least(2, i)])
{ int k; for (k = 0; k < least(i, 2); k++) v[k] = w[k] + size(k); }
} }
====
int f(void) { } int main(void) { f(); { int f = 3, main = 4, y;
#pragma omp task output(osout << y)
y = f * main;
} }
====
// Names that hide others.
int main(void) { int osin = 3, osout = 4, osin_len = 5; int s __attribute__((stream)); int y;
#pragma omp task output(s << y)
y = osin * osout + osin_len;
}
====
int main(void) { int s __attribute__((stream)); int x, y; { int s = 4;
#pragma omp task output(osout << y)
y = s;
}
#pragma omp task input(s) output(osout)
osout = s;
for (int x = 1; x < 3; x++) { int y = x; { int x = y * 3;
#pragma omp task output(osout << y)
y = x;
} } }
====
// Every output item goes out, also where the body leaves it.
int main(void) { int a, b, c[2], d, e, f[2], g, h; int s __attribute__((stream));
#pragma omp task input(osin >> a, s >> b, osin >> c[1], osin) output(s << d, osout << e, osout << f[2], s)
{ d = a * 3; f[1] = c[0]; f[0] = c[1]; e = osin; s = d + e - b; }
#pragma omp task output(osout << d, osout << e), input(osin >> a)
{ e = a; d = 300; }
}
====
int main(void) { int y, w[3];
#pragma omp task output(osout << w[3])
{ w[0] = 255; w[1] = 0; w[2] = 256; }
#pragma omp task output(osout << y)
y = -1;
#pragma omp task output(osout << y)
{ y = 400; y = 255; }
#pragma omp task output(osout << y)
while (1) y = 300;
}
====
const int N = 2; const int K = -3; int main(void) { int s[N] __attribute__((stream)); int w[N + 1], y = K;
#pragma omp task input(s[N - 1] >> w[N]) output(s[0] << y)
{ int a[N]; y = a[1] + w[N] * K + y; a[N - 1] = y; y -= a[1] + N; }
}
====
int main(void) { int s[3000] __attribute__((stream)); int i, x, y; for (i = 0; i < 3000; i += 999) {
#pragma omp tick(s[i] >> i)
#pragma omp task input(s[i] >> x) output(s[2999 - i] << y)
y = x;
} }
";
