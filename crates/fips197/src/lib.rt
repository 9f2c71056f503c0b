// AES-128 as FIPS 197 defines it: definitions and laws, and no code.
#![tactic(auto)]
