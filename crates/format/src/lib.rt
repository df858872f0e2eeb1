// The bytes of jobs and certificates, and the verdict on a pair of them: definitions only, in specs/.
#![tactic(auto)]
