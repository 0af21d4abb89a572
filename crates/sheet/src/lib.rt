// Lines of a sheet.
#![tactic(auto)]
