// What a line does to a reading, over any records: definitions and theorems only.
#![tactic(auto)]
