//! Control programs with as many activations, and windows of as many elements, as there may be.

use flow_core_laws::ControlEnd;

/// A program, the length of its input, a budget, how many activations there are, and the end.
pub type Counted = (&'static str, u32, u64, usize, ControlEnd);

/// Programs that meet a limit or use up their turns, and ones that just don't.
pub static COUNTED: [Counted; 9] = [
    // 65,536 activations; the next one would pass both limits, and the first counts
    (
        "int main(void) {\nint i, w[64];\nfor (i = 0; i < 65537; i++) {\n#pragma omp task input(osin >> w[0])\n;\n}\n}\n",
        0,
        65_537,
        65_536,
        ControlEnd::Limit(1),
    ),
    (
        "int main(void) {\nint i, w[64];\nfor (i = 0; i < 65537; i++) {\n#pragma omp task input(osin >> w[0])\n;\n}\n}\n",
        0,
        65_536,
        65_536,
        ControlEnd::OverBudget,
    ),
    (
        "int main(void) {\nint i, w[64];\nfor (i = 0; i < 65536; i++) {\n#pragma omp task input(osin >> w[0])\n;\n}\n}\n",
        0,
        65_537,
        65_536,
        ControlEnd::Done,
    ),
    // the second limit alone
    (
        "int main(void) {\nint i, w[65];\nfor (i = 0; i < 65537; i++) {\n#pragma omp task input(osin >> w[0])\n;\n}\n}\n",
        0,
        65_537,
        64_527,
        ControlEnd::Limit(2),
    ),
    // 4,194,304 elements, and one more
    (
        "int main(void) {\nint i, w[65536];\nfor (i = 0; i < 64; i++) {\n#pragma omp task input(osin >> w[1])\n;\n}\n}\n",
        0,
        65,
        64,
        ControlEnd::Done,
    ),
    (
        "int main(void) {\nint i, w[65536];\nfor (i = 0; i < 64; i++) {\n#pragma omp task input(osin >> w[1])\n;\n}\n#pragma omp task input(osin)\n;\n}\n",
        0,
        65,
        64,
        ControlEnd::Limit(2),
    ),
    // the trap of an item comes before the limits
    (
        "int main(void) {\nint i, w[1];\nfor (i = 0; i < 65537; i++) {\n#pragma omp task input(osin >> w[i * 2 - 65536 > 65535 ? -1 : 0])\n;\n}\n}\n",
        0,
        65_537,
        65_536,
        ControlEnd::Trapped { code: 7, line: 4 },
    ),
    // without and with enough turns
    (
        "int main(void) {\nint i, y;\nfor (i = 0; i < 70000; i++) {\n#pragma omp task output(osout << y)\ny = i & 255;\n}\n}\n",
        0,
        1_000_000,
        65_536,
        ControlEnd::Limit(1),
    ),
    (
        "int main(void) {\nint i, y;\nfor (i = 0; i < 70000; i++) {\n#pragma omp task output(osout << y)\ny = i & 255;\n}\n}\n",
        0,
        3,
        3,
        ControlEnd::OverBudget,
    ),
];
