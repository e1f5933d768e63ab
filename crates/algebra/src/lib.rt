// Definitions and theorems only, in specs/ and proofs/: this crate has no code.
