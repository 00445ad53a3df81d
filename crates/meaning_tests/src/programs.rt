//! Programs whose control programs and bodies were worked out by hand, as `case` says.

pub const PROGRAMS: &str = r"int main(void) {
    int y;
    #pragma omp task output(osout << y)
    y = (1 / 0)
      + (2147483647 + 1);
    #pragma omp task output(osout << y)
    y = (2147483647 + 1)
      + 1 / 0;
    #pragma omp task output(osout << y)
    y = 1
      + 2147483647
      - 1 / 0;
}
----
run 0 0 = 0 [] w 1 1; 1 [] w 1 1; 2 [] w 1 1; Done
body 0 9 = trapped 2 line 4
body 1 9 = trapped 1 line 7
body 2 9 = trapped 1 line 11
====
int main(void) {
    int y;
    #pragma omp task output(osout << y)
    {
        int a[3];
        a[
        3] = 1 / 0;
    }
    #pragma omp task output(osout << y)
    {
        int a[3];
        a[1 / 0]
          = 1 << 32;
    }
    #pragma omp task output(osout << y)
    {
        int a[3];
        a[2]
          += 2147483647;
        a[2]
          ++;
    }
}
----
run 0 0 = 0 [] w 1 1; 1 [] w 1 1; 2 [] w 1 1; Done
body 0 9 = trapped 4 line 6
body 1 9 = trapped 2 line 12
body 2 9 = trapped 1 line 21
====
int main(void) {
    int n = 2;
    int w[n + 1], o[1];
    #pragma omp task input(osin >> w[1]) output(osout << o[1])
    o[0] = w[2];
    #pragma omp task input(osin >> w[0]) output(osout << o[1])
    o[w[0]]
      = w[0 - 1];
}
----
run 9 0 = 0 [] r 0 3 1 s 0, w 1 1; 1 [] r 0 3 0 s 0, w 1 1; Done
body 0 0 7 8 9 = Done 9
body 1 0 1 5 6 = trapped 4 line 7
body 1 0 0 5 6 = trapped 4 line 8
====
int main(void) {
    int x = x + 5, y;
    int i;
    for (i = 0; i < 2; i++) {
        int x = x + 1;
        int z;
        #pragma omp task output(osout << y)
        y = x * 100 + z + i;
        x = 7;
        z = 9;
    }
    #pragma omp task output(osout << y)
    { int x = x + 2; int y = x; }
    #pragma omp task output(osout << y)
    y = x;
}
----
run 0 3 = 0 [0 1 0] w 1 1; 0 [1 1 0] w 1 1; 1 [] w 1 1; 2 [5] w 1 1; Done
run 0 2 = 0 [0 1 0] w 1 1; 0 [1 1 0] w 1 1; over budget
body 0 0 = Done 100
body 1 0 = Done 101
body 2 0 = Done 0
body 3 0 = Done 5
====
int main(void) {
    int i = 4, y;
    for (int i = i; i < 6; i++) {
        if (i == 1) continue;
        if (i - 4) ; else break;
        #pragma omp task output(osout << y)
        y = i;
    }
    #pragma omp task output(osout << y)
    y = i;
}
----
run 0 5 = 0 [0] w 1 1; 0 [2] w 1 1; 0 [3] w 1 1; 1 [4] w 1 1; Done
run 0 4 = 0 [0] w 1 1; 0 [2] w 1 1; 0 [3] w 1 1; over budget
body 0 0 = Done 0
body 1 0 = Done 2
body 2 0 = Done 3
body 3 0 = Done 4
====
int main(void) {
    int i = 1, y;
    while (
        1 / i) {
        #pragma omp task output(osout << y) firstprivate(i)
        y = 3;
        i--;
    }
}
----
run 0 1 = 0 [1] w 1 1; over budget
run 0 2 = 0 [1] w 1 1; trapped 2 line 4
run 0 0 = over budget
body 0 0 = Done 3
====
int main(void) {
    int y, i = 0;
    for (;;) {
        if (i == 2) return 1 / (i - 2);
        #pragma omp task output(osout << y)
        y = i;
        i += 1;
    }
}
----
run 0 3 = 0 [0] w 1 1; 0 [1] w 1 1; trapped 2 line 4
run 0 2 = 0 [0] w 1 1; 0 [1] w 1 1; over budget
run 0 1 = 0 [0] w 1 1; over budget
body 0 0 = Done 0
body 1 0 = Done 1
====
int main(void) {
    int i, j, y;
    for (i = 0; i < 3; i++)
        for (j = 0; j < 3; j++) {
            #pragma omp task output(osout << y)
            y = 10 * i + j;
            if (i + j == 3) return -1;
        }
    #pragma omp task
    ;
}
----
run 0 9 = 0 [0 0] w 1 1; 0 [0 1] w 1 1; 0 [0 2] w 1 1; 0 [1 0] w 1 1; 0 [1 1] w 1 1; 0 [1 2] w 1 1; Done
run 0 8 = 0 [0 0] w 1 1; 0 [0 1] w 1 1; 0 [0 2] w 1 1; 0 [1 0] w 1 1; 0 [1 1] w 1 1; over budget
body 5 0 = Done 12
====
const int K = -3;
int g(void) { }
int h(int a, int b) { if (a) return b; }
int main(void) {
    int y;
    #pragma omp task output(osout << y)
    y = h(1 / 0, g());
    #pragma omp task output(osout << y)
    y = h(g(), 5) + h(K, 5) * 10 + h(0, 7);
}
----
run 0 0 = 0 [] w 1 1; 1 [] w 1 1; Done
body 0 0 = trapped 2 line 7
body 1 4 = Done 50
body 1 3 = over budget
====
int main(void) {
    int s __attribute__((stream));
    int a, b, w[2];
    #pragma omp task output(s << a, osout << w[2])
    { a = 300; w[1] = 255; }
    #pragma omp task \
        output(s << a) output(osout << b)
    { a = 1; b = -1; }
    #pragma omp task output(osout << b)
    { b = 256; b = 1 / (b - 256); }
    #pragma omp task output(osout << b)
    { b = 256; while (1) ; }
    #pragma omp task output(osout << b)
    { b = 256; b = b - 1; }
}
----
run 0 0 = 0 [] w 2 1, w 1 2; 1 [] w 2 1, w 1 1; 2 [] w 1 1; 3 [] w 1 1; 4 [] w 1 1; Done
body 0 0 = Done 300 0 255
body 1 0 = trapped 5 line 6
body 2 0 = trapped 2 line 10
body 3 9 = over budget
body 4 0 = Done 255
====
const int N = 3;
int main(void) {
    int t __attribute__((stream)), s[N] __attribute__((stream)), u __attribute__((stream));
    int x, i, w[2];
    for (i = 2; i >= 0; i--) {
        #pragma omp task output(s[i] << x)
        x = i;
    }
    #pragma omp tick(s[1] >> 4)
    #pragma omp task input(u, s[1] >> x, s[1] >> w[0]) output(t)
    t = u + x + w[0] + w[1];
    #pragma omp task input(s[ \
        3] >> w[99999])
    ;
}
----
run 0 5 = 0 [2] w 5 1; 0 [1] w 4 1; 0 [0] w 3 1; 1 [] r 6 1 1 s 0, r 4 1 1 s 4, r 4 2 0 s 0, w 2 1; trapped 4 line 12
run 0 4 = 0 [2] w 5 1; 0 [1] w 4 1; 0 [0] w 3 1; over budget
body 3 0 10 20 30 40 = Done 100
====
int main(void) {
    int s __attribute__((stream));
    int x, y, w[4];
    #pragma omp tick(s >> 2)
    #pragma omp tick(s >> 3)
    #pragma omp task output(s << w[4])
    ;
    #pragma omp tick(osin >> 0)
    #pragma omp tick(s >> 65536)
    #pragma omp task input(s >> x, s >> y)
    ;
    #pragma omp tick(s >> 1)
    #pragma omp task input(s) output(s << x)
    x = s;
    #pragma omp tick(s >> 9)
}
----
run 0 6 = 0 [] w 2 4; 1 [] r 2 1 1 s 65541, r 2 1 1 s 0; 2 [] r 2 1 1 s 1, w 2 1; Done
run 0 5 = 0 [] w 2 4; 1 [] r 2 1 1 s 65541, r 2 1 1 s 0; 2 [] r 2 1 1 s 1, w 2 1; over budget
body 0 0 = Done 0 0 0 0
====
int main(void) {
int s[2] __attribute__((stream));
#pragma omp tick(s[2] >> 1 / 0)
}
----
run 0 0 = trapped 4 line 3
====
int main(void) {
int s[2] __attribute__((stream));
#pragma omp tick(s[1 / 0] >> 70000)
}
----
run 0 0 = trapped 2 line 3
====
int main(void) {
int s[2] __attribute__((stream));
#pragma omp tick(s[1] >> 65537)
}
----
run 0 0 = trapped 7 line 3
====
int main(void) {
int s[2] __attribute__((stream));
#pragma omp tick(s[1] \
>> \
-1)
}
----
run 0 0 = trapped 7 line 4
====
int main(void) {
int s[2] __attribute__((stream));
#pragma omp tick(s[0 - \
1] >> 1)
}
----
run 0 0 = trapped 4 line 3
====
int main(void) {
int s[2] __attribute__((stream));
#pragma omp tick(s[0] >> 65536)
}
----
run 0 0 = over budget
====
int main(void) {
int s[2] __attribute__((stream));
#pragma omp tick(s[0] >> 65536)
}
----
run 0 1 = Done
====
int main(void) {
int s[2] __attribute__((stream));
int v[2], w[3];
#pragma omp task input(osin >> v[65537]) output(s[5] << w[3])
;
}
----
run 0 9 = trapped 7 line 4
====
int main(void) {
int s[2] __attribute__((stream));
int v[2], w[3];
#pragma omp task input(osin >> v[2]) \
output(s[5] \
<< w[4])
;
}
----
run 0 9 = trapped 4 line 5
====
int main(void) {
int s[2] __attribute__((stream));
int v[2], w[3];
#pragma omp task input(osin >> v[2]) \
output(s[1] \
<< w[4])
;
}
----
run 0 9 = trapped 8 line 6
====
int main(void) {
int s[2] __attribute__((stream));
int v[2], w[3];
#pragma omp task output(s[0] << w[3], osout << v[0 - 2])
;
}
----
run 0 9 = trapped 8 line 4
====
int main(void) {
int s[2] __attribute__((stream));
int v[2], w[3];
#pragma omp task output(s[0] << w[3]) input(osin >> v[0 - 1])
;
}
----
run 0 9 = trapped 7 line 4
====
int main(void) {
int s[2] __attribute__((stream));
int v[2], w[3];
#pragma omp task output(s[0] << w[3]) input(s[2] >> v[1 / 0])
;
}
----
run 0 9 = trapped 4 line 4
====
int main(void) {
    int n;
    for (n = 2; n >= 0; n--) {
        int a[n], b[n];
        #pragma omp task input(osin >> a[1]) output(osout << b[n])
        { int k; for (k = 0; k < n; k++) b[k] = a[n - 1 - k]; }
    }
}
----
run 2 3 = 0 [2] r 0 2 1 s 0, w 1 2; 0 [1] r 0 1 1 s 0, w 1 1; trapped 6 line 4
run 2 2 = 0 [2] r 0 2 1 s 0, w 1 2; 0 [1] r 0 1 1 s 0, w 1 1; over budget
body 0 3 5 6 = Done 6 5
body 0 2 5 6 = over budget
body 1 9 6 = Done 6
====
const int c = 2;
int f(int c) { { int c = c + 1; c = 9; } c = c * 10; return c; }
int main(void) {
    int c = f(c + 3) - 29 + c;
    int y;
    { int y[c + 2];
      #pragma omp task output(osout << y[3])
      { y[0] = c; { int y = 4; c = y; } y[1] = c; for (int c = 0; c < 2; c++) y[2] = c; y[2] = y[2] + c * 10; }
    }
    #pragma omp task output(osout << y)
    { int y = 5; y = y + c; }
    int osin_len = 8;
    #pragma omp task output(osout << y)
    y = osin_len + c;
}
----
run 0 1 = 0 [1] w 1 3; 1 [1] w 1 1; 2 [1 8] w 1 1; Done
run 0 0 = over budget
body 0 3 = Done 1 4 41
body 1 0 = Done 0
body 2 0 = Done 9
====
int main(void) {
    int b = 1, a = 2, d = 4, e, y;
    for (int k = 5; k < 6; k++) {
        int b = 7;
        #pragma omp task firstprivate(e, b) output(osout << y)
        { int d = a; a = a + k; y = a + d + osin_len + b + e; }
        a = 50; b = 60; k = k;
        #pragma omp task output(osout << y)
        y = a + b;
    }
    #pragma omp task firstprivate(osin_len) output(osout << y)
    y = b;
}
----
run 3 2 = 0 [3 2 0 5 7] w 1 1; 1 [50 60] w 1 1; 2 [3 1] w 1 1; Done
body 0 0 = Done 19
body 1 0 = Done 110
body 2 0 = Done 1
====
int main(void) {
    int s __attribute__((stream)), t __attribute__((stream));
    int x, v[2];
    #pragma omp task input(s) output(t, osout << v[2])
    { t = s; t++; t += v[1]; v[1]--; v[0] = -v[1]; v[1] = t; }
    #pragma omp task input(t >> x), output(s << v[2])
    { int k; for (k = 0; k < 2; k++) v[k] = v[k] + x; v[0] *= v[1]; }
}
----
run 0 0 = 0 [] r 2 1 1 s 0, w 3 1, w 1 2; 1 [] r 3 1 1 s 0, w 2 2; Done
body 0 9 41 = Done 42 1 42
body 1 9 6 = Done 36 6
====
int main(void) {
    int i;
    for (i = 0; i < 4; i++) {
        if (i & 1) {
            #pragma omp task
            ;
        } else if (i) {
            #pragma omp task
            ;
        } else
            #pragma omp taskwait
        #pragma omp task
        ;
    }
}
----
run 0 5 = 2 []; 0 []; 2 []; 1 []; 2 []; 0 []; 2 []; Done
run 0 4 = 2 []; 0 []; 2 []; 1 []; 2 []; 0 []; 2 []; over budget
body 0 0 = Done
body 1 0 = Done
body 3 0 = Done
====
int f(int n) {
    int i, s;
    for (i = 0; i < n; i++) {
        int j = 9;
        while (j) { j--; if (j % 2) continue; if (j == 4) break; s += j; }
        if (i == 2) return s;
    }
}
int main(void) {
    int s __attribute__((stream));
    int y;
    #pragma omp task output(s << y)
    y = f(5);
    #pragma omp task output(s << y)
    y = f(2);
}
----
run 0 0 = 0 [] w 2 1; 1 [] w 2 1; Done
body 0 19 = Done 42
body 0 18 = over budget
body 1 14 = Done 0
body 1 13 = over budget
====
int main(void) {
    int k;
    #pragma omp tick(osin >> 1)
    #pragma omp task input(osin) output(osout)
    osout = 255 - osin;
    for (k = 0; k < osin_len; k += 2) {
        #pragma omp task input(osin, osin >> k) output(osout)
        { osout = osin; if (k < 9) osout -= 1; }
    }
}
----
run 3 4 = 0 [] r 0 1 1 s 1, w 1 1; 1 [] r 0 1 1 s 0, r 0 1 1 s 0, w 1 1; 1 [] r 0 1 1 s 0, r 0 1 1 s 0, w 1 1; Done
body 0 0 200 = Done 55
body 1 0 9 8 = Done 8
body 1 0 9 9 = Done 9
body 1 0 0 0 = trapped 5 line 7
====
int main(void) {
int s __attribute__((stream)); int y;
#pragma omp task output(s << y)
{ int x = 7; x
<<=
31; }
}
----
run 0 9 = 0 [] w 2 1; Done
body 0 9 = trapped 3 line 5
====
int main(void) {
int s __attribute__((stream)); int y;
#pragma omp task output(s << y)
{ int x = 7; x -= x - 1; y = x; }
}
----
run 0 9 = 0 [] w 2 1; Done
body 0 9 = Done 1
====
int main(void) {
int s __attribute__((stream)); int y;
#pragma omp task output(s << y)
{ int x = 7; x
%=
x -
7; }
}
----
run 0 9 = 0 [] w 2 1; Done
body 0 9 = trapped 2 line 5
====
int main(void) {
int s __attribute__((stream)); int y;
#pragma omp task output(s << y)
{ int x = 7; x += 2147483647 +
1 / 0; }
}
----
run 0 9 = 0 [] w 2 1; Done
body 0 9 = trapped 2 line 5
====
int main(void) {
int s __attribute__((stream)); int y;
#pragma omp task output(s << y)
{ int x = 2; x *= 3 + 4; y = x; }
}
----
run 0 9 = 0 [] w 2 1; Done
body 0 9 = Done 14
====
int main(void) {
int s __attribute__((stream)); int y;
#pragma omp task output(s << y)
{ int x = -2147483647; --x;
x--; }
}
----
run 0 9 = 0 [] w 2 1; Done
body 0 9 = trapped 1 line 5
====
int f(int n) { while (n) n--; return n; }
int main(void) {
    int w[f(2) + 1], y;
    #pragma omp task input(osin >> w[f(1)]) output(osout << y)
    y = f(3) + w[0];
}
----
run 0 7 = 0 [] r 0 1 0 s 0, w 1 1; Done
run 0 6 = over budget
body 0 5 77 = Done 77
body 0 4 77 = over budget
====
const int B = 4;
int main(void) {
    int i;
    for (i = 0; i < osin_len; i += B) {
        int n = osin_len - i < B ? osin_len - i : B;
        int a[n], b[n];
        #pragma omp task input(osin >> a[n]) output(osout << b[n])
        {
            int k;
            for (k = 0; k < n; k++) b[k] = 255 - a[k];
        }
    }
    return 0;
}
----
run 10 4 = 0 [4] r 0 4 4 s 0, w 1 4; 0 [4] r 0 4 4 s 0, w 1 4; 0 [2] r 0 2 2 s 0, w 1 2; Done
run 10 3 = 0 [4] r 0 4 4 s 0, w 1 4; 0 [4] r 0 4 4 s 0, w 1 4; 0 [2] r 0 2 2 s 0, w 1 2; over budget
body 0 5 0 1 2 3 = Done 255 254 253 252
body 2 3 8 9 = Done 247 246
body 2 2 8 9 = over budget
";
