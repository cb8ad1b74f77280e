// A file of any form as the list of its records; no code. Definitions in specs/: Blocks (records and their bytes, put together and taken
// apart), OnRecords (the body of a rule, the order of records; what refuses a file, said of the list, for proofs only). Laws: BlockLaws,
// Agreement (what OnRecords says refuses a file is spec_file's `fault_in`, for every form that fits), FormLaws (a file is not refused exactly
// where its records are sound), RecordLaws (the order of records, unused bytes, ranges).
#![tactic(auto)]
