//! How activations claim streams: overlap, peek, ticks, and where the control program ends.

pub const FLOWS: &str = r"int main(void) {
    int s __attribute__((stream));
    int i;
    for (i = 0; i < 2; i++) {
        int p[2], q, w[3], o[3];
        #pragma omp task output(s << p[2])
        { p[0] = 10 * i; p[1] = 10 * i + 1; }
        #pragma omp task output(s << q)
        q = 10 * i + 2;
        #pragma omp task input(s >> w[3]) output(osout << o[3])
        { int k; for (k = 0; k < 3; k++) o[k] = w[k]; }
    }
}
----
run 0 3 = 0 [0] w 2 2; 1 [0] w 2 1; 2 [] r 2 3 3 s 0, w 1 3; 0 [1] w 2 2; 1 [1] w 2 1; 2 [] r 2 3 3 s 0, w 1 3; Done
body 3 0 = Done 10 11
body 4 0 = Done 12
body 5 4 10 11 12 = Done 10 11 12
====
int main(void) {
    int w[1], x, y;
    #pragma omp task input(osin >> w[0]) output(osout << y)
    y = w[0];
    #pragma omp task input(osin >> w[0]) output(osout << y)
    y = w[0];
    #pragma omp tick(osin >> 1)
    #pragma omp task input(osin >> x) output(osout << y)
    y = x;
}
----
run 2 1 = 0 [] r 0 1 0 s 0, w 1 1; 1 [] r 0 1 0 s 0, w 1 1; 2 [] r 0 1 1 s 1, w 1 1; Done
run 2 0 = 0 [] r 0 1 0 s 0, w 1 1; 1 [] r 0 1 0 s 0, w 1 1; over budget
body 0 0 5 = Done 5
====
int main(void) {
    int i, y;
    for (i = 0; i < 70000; i++) {
        #pragma omp task output(osout << y)
        y = i & 255;
    }
}
----
run 0 3 = 0 [0] w 1 1; 0 [1] w 1 1; 0 [2] w 1 1; over budget
====
int main(void) {
int n = 0;
int w[n];
}
----
run 0 9 = trapped 6 line 3
====
int main(void) {
int w[4];
#pragma omp task input(osin >> w[65537])
;
}
----
run 0 9 = trapped 7 line 3
====
int main(void) {
int w[4];
#pragma omp task output(osout << w[3])
w[0] = 1;
}
----
run 0 9 = trapped 8 line 3
====
int main(void) {
    int i;
    for (i = 0; i + 2 < osin_len; i++) {
        int w[3], y;
        #pragma omp task input(osin >> w[1]) output(osout << y)
        y = (w[0] + w[1] + w[2]) / 3;
    }
    return 0;
}
----
run 4 3 = 0 [] r 0 3 1 s 0, w 1 1; 0 [] r 0 3 1 s 0, w 1 1; Done
run 4 2 = 0 [] r 0 3 1 s 0, w 1 1; 0 [] r 0 3 1 s 0, w 1 1; over budget
body 0 0 3 6 9 = Done 6
body 1 0 6 9 12 = Done 9
====
int main(void) {
    int s __attribute__((stream));
    int x, y;
    #pragma omp task input(s >> x) output(osout << y)
    y = x + 1;
    #pragma omp task output(s << x)
    x = 41;
}
----
run 0 0 = 0 [] r 2 1 1 s 0, w 1 1; 1 [] w 2 1; Done
body 0 0 41 = Done 42
body 1 0 = Done 41
====
int main(void) {
    int s __attribute__((stream)), t __attribute__((stream));
    int x, y;
    #pragma omp task input(s >> x) output(t << y)
    y = x;
    #pragma omp task input(t >> x) output(s << y)
    y = x;
    #pragma omp task input(s >> x) output(s << y)
    y = x;
}
----
run 0 0 = 0 [] r 2 1 1 s 0, w 3 1; 1 [] r 3 1 1 s 0, w 2 1; 2 [] r 2 1 1 s 0, w 2 1; Done
body 2 0 7 = Done 7
====
int main(void) {
    int i;
    for (i = 0; i < 2; i++) {
        int w[1], y;
        #pragma omp task input(osin >> w[3]) output(osout << y)
        y = w[0];
    }
}
----
run 4 3 = 0 [] r 0 1 3 s 0, w 1 1; 0 [] r 0 1 3 s 0, w 1 1; Done
body 0 0 1 = Done 1
body 1 0 4 = Done 4
====
int main(void) {
    int i;
    for (i = 0; i < osin_len; i++) {
        int x, y;
        #pragma omp task input(osin >> x) output(osout << y)
        y = 100 / x;
    }
}
----
run 3 4 = 0 [] r 0 1 1 s 0, w 1 1; 0 [] r 0 1 1 s 0, w 1 1; 0 [] r 0 1 1 s 0, w 1 1; Done
body 0 0 2 = Done 50
body 1 0 0 = trapped 2 line 6
body 2 0 5 = Done 20
====
int main(void) {
    int y;
    #pragma omp task output(osout << y)
    y = 0 && 1 / 0;
    #pragma omp task output(osout << y)
    y = 2147483647 + 1;
    #pragma omp task output(osout << y)
    y = (-2147483647 - 1) / -1;
}
----
run 0 0 = 0 [] w 1 1; 1 [] w 1 1; 2 [] w 1 1; Done
body 0 0 = Done 0
body 1 0 = trapped 1 line 6
body 2 0 = trapped 1 line 8
====
int main(void) {
    int y;
    #pragma omp task output(osout << y)
    { int k; for (k = 0; k < 5; k++) y = k; }
}
----
run 0 0 = 0 [] w 1 1; Done
body 0 5 = over budget
body 0 6 = Done 4
====
int main(void) {
    int y;
    #pragma omp task output(osout << y)
    y = 255;
    #pragma omp task output(osout << y)
    y = 256;
}
----
run 0 0 = 0 [] w 1 1; 1 [] w 1 1; Done
body 0 0 = Done 255
body 1 0 = trapped 5 line 5
====
int main(void) {
    int s __attribute__((stream));
    int w[4], x, y;
    #pragma omp task input(osin >> w[4]) output(s << x)
    x = w[3];
    #pragma omp task input(s >> x) output(osout << y)
    y = x;
}
----
run 2 0 = 0 [] r 0 4 4 s 0, w 2 1; 1 [] r 2 1 1 s 0, w 1 1; Done
body 0 0 1 2 3 4 = Done 4
====
int main(void) {
    int n = 65536;
    int a[n], b
    [n + 1];
}
----
run 0 0 = trapped 6 line 4
====
int main(void) {
    int s __attribute__((stream)), t __attribute__((stream));
    int x;
    #pragma omp tick(t >> 65536)
    #pragma omp tick(s >> 1)
    #pragma omp tick(s >> 2)
    #pragma omp task input(s >> x)
    ;
    #pragma omp task input(s >> x)
    ;
}
----
run 0 3 = 0 [] r 2 1 1 s 3; 1 [] r 2 1 1 s 0; Done
run 0 2 = over budget
====
int main(void) { }
----
run 0 0 = Done
====
int f(int a) { return a + 1; }
int main(void) {
    int w[f(1)], y;
    #pragma omp task input(osin >> w[2]) output(osout << y)
    y = w[1];
}
----
run 2 1 = 0 [] r 0 2 2 s 0, w 1 1; Done
run 2 0 = over budget
body 0 0 4 9 = Done 9
====
int f(int a) { return a + 1; }
int main(void) {
    int w[2], y;
    #pragma omp task input(osin >> w[f(0)]) output(osout << y)
    y = w[1];
    #pragma omp task output(osout << w[f(1)])
    ;
}
----
run 2 2 = 0 [] r 0 2 1 s 0, w 1 1; 1 [] w 1 2; Done
run 2 1 = 0 [] r 0 2 1 s 0, w 1 1; over budget
run 2 0 = over budget
body 1 0 = Done 0 0
====
int f(int a) { return a + 1; }
int main(void) {
    int s[2] __attribute__((stream));
    int x;
    #pragma omp task output(s[f(0)] << x)
    x = 7;
    #pragma omp task input(s[f(-1)] >> x)
    ;
}
----
run 0 2 = 0 [] w 3 1; 1 [] r 2 1 1 s 0; Done
run 0 1 = 0 [] w 3 1; over budget
run 0 0 = over budget
body 0 0 = Done 7
====
int f(int a) { return a + 1; }
int main(void) {
    int x;
    #pragma omp tick(osin >> f(1))
    #pragma omp task input(osin >> x)
    ;
}
----
run 3 2 = 0 [] r 0 1 1 s 2; Done
run 3 1 = over budget
run 3 0 = over budget
====
int f(int a) { return a + 1; }
int main(void) {
    #pragma omp tick(osin >> f(65536))
}
----
run 0 1 = trapped 7 line 3
run 0 0 = over budget
====
int f(int a) { return a + 1; }
int g(int a, int b) { return 10 * a + b; }
int main(void) {
    int x = f(1), y;
    x += f(1);
    #pragma omp task output(osout << y)
    y = x;
    x = g(1, f(2));
    #pragma omp task output(osout << y)
    y = x;
    return f(0);
}
----
run 0 5 = 0 [4] w 1 1; 1 [13] w 1 1; Done
run 0 4 = 0 [4] w 1 1; 1 [13] w 1 1; over budget
run 0 3 = 0 [4] w 1 1; over budget
run 0 2 = 0 [4] w 1 1; over budget
run 0 1 = over budget
run 0 0 = over budget
body 1 0 = Done 13
====
int f(int a) { return a + 1; }
int main(void) {
    int x, y;
    x = f(1) ? 2 : 3;
    #pragma omp task output(osout << y)
    y = x;
    x = (f(0) && f(1)) + 2 * (f(-1) || f(0));
    #pragma omp task output(osout << y)
    y = x;
}
----
run 0 5 = 0 [2] w 1 1; 1 [3] w 1 1; Done
run 0 4 = 0 [2] w 1 1; over budget
run 0 3 = 0 [2] w 1 1; over budget
run 0 2 = 0 [2] w 1 1; over budget
run 0 1 = 0 [2] w 1 1; over budget
run 0 0 = over budget
body 1 0 = Done 3
";
