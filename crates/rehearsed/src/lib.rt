// What a person does with the printed texts is what is proved of the streams: theorems only.
#![tactic(auto)]
