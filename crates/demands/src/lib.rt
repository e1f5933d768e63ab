#![tactic(auto)]

// Theorems about the kernel's definitions, in specs/: the user's three demands sentence by sentence, and document 01's figures C1 to C12. No code.
