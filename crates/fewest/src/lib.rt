// No stream without Bulk Erase that leaves what an update leaves has fewer Row Erases.
#![tactic(auto)]
